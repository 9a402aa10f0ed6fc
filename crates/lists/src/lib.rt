// Shared definitions and laws on choices, lists and counts; the word of a slice at any place, and small functions that
// many crates call.
#![tactic(auto)]

pub mod words; // words.rt: a write at a place that need not be there
pub mod numbers; // numbers.rt: a choice

ghost use Rattle.std.specs.Prelude.{◌≡◌, get_or};

/// The word at a place; past the end it is 0.
#[inline(always)]
pub fn get(words: &[u32], i: usize) -> u32
    ensures { result ≡ get_or words.now i 0 }
{
    words.get(i).copied().unwrap_or(0)
}
