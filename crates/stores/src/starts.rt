// The start images, each right behind the one before: how long the next is.
ghost use Rattle.std.specs.Prelude.{◌≡◌, ◌≤◌, min, length};
ghost use Rattle.machine.specs.StoreRun.{stated_length};

/// The length of the first, as far as its words are there.
pub fn first_length(words: &[u32]) -> usize
    ensures { (result ≡ min (stated_length words.now) (length words.now))
        × (result ≤ length words.now) }
{
    words.len().min(lists::get(words, 5) as usize)
}
