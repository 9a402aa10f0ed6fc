// The header: counts, offsets, total and length.
ghost use Rattle.std.specs.Prelude.{◌≡◌};
ghost use Rattle.image.specs.Image.{sound_header};
ghost use Rattle.image.specs.Parts.{has_part};

use crate::by_size::{edge_offset, incidence_offset, length};
use crate::layout::{HEADER, record_size};
use lists::get;

/// Whether length, offsets and total fit the counts, in records of one size.
#[tactic(auto, unfolding(crate::specs::Image::sound_header))]
pub fn sound(words: &[u32]) -> bool
    ensures { result ≡ sound_header words.now }
{
    let size = record_size(words);
    let v = get(words, 0) as usize;
    let e = get(words, 1) as usize;
    let total = length(size, v, e);
    get(words, 2) as usize == HEADER
        && get(words, 3) as usize == edge_offset(size, v)
        && get(words, 4) as usize == incidence_offset(size, v, e)
        && get(words, 5) as usize == total
        && words.len() == total
}

/// Whether the words have this part: 1, 2 or 3 of a sound header.
#[tactic(auto, unfolding(crate::specs::Parts::has_part))]
pub fn has_part(words: &[u32], which: u32) -> bool
    ensures { result ≡ has_part which words.now }
{
    sound(words) && 1 <= which && which <= 3
}
