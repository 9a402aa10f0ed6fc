// Slices at a place that is a caller's word, beside `get`.
ghost use Rattle.std.specs.Prelude.{◌≡◌, set};

/// A write past the end is nothing. It goes by index: what `get_mut` lends leaves no clause on the elements afterwards.
#[inline(always)]
pub fn put<T: Copy>(list: &mut [T], i: usize, value: T)
    ensures { list.new ≡ set list.old i value }
{
    if i < list.len() {
        list[i] = value;
    }
}
