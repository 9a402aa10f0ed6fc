// The image of a graph: its header and its parts in the caller's words. REFERENCE 10.1 to 10.5, 10.7.
#![tactic(auto)]

pub mod layout; // layout.rt: the words of header and records, where the parts begin, and which records words have
pub mod by_size; // by_size.rt: the same places by the words of a vertex record
pub mod by_name; // by_name.rt: the parts by name
pub mod header; // header.rt: whether the header is sound, and which parts there are

ghost use Rattle.std.specs.Prelude.{◌≡◌, ◌<◌, ◌^◌};
ghost use Rattle.image.specs.Image.{part as part_of};
ghost use Rattle.image.specs.Parts.{part_bound, part_start, LiesAt};

use lists::get;

// The header's word `next` behind the number of a part: where the part starts (1) or ends (2). 0 where there is no such
// part: without a sound header, or for another number than 1, 2 or 3.
fn part_bound(words: &[u32], which: u32, next: u32) -> usize
    ensures { (result ≡ part_bound next which words.now) × (result < 2 ^ 32) }
{
    if !header::has_part(words, which) {
        return 0;
    }
    get(words, which as usize + next as usize) as usize
}

// In these two a number tells which part: C asks for any, and `empty_elsewhere` is refused by what they promise of one
// that names none. A caller that knows its part takes it by name.

/// Where a part starts, in words from the first: the header's offset of it, also where the part is empty.
pub fn part_start(words: &[u32], which: u32) -> usize
    ensures { result ≡ part_start which words.now }
{
    part_bound(words, which, 1)
}

/// Part 1, 2 or 3 (vertices, edges, incidences) of words with a sound header, as it lies in these very words;
/// else an empty part at their first.
pub fn part(words: &[u32], which: u32) -> &[u32]
    ensures { (result.now ≡ part_of which words.now)
        × LiesAt (part_start which words.now) words.entry result }
{
    let start = part_bound(words, which, 1);
    let end = part_bound(words, which, 2);
    &words[start..end]
}
