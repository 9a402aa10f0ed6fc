// Whether words can be loaded, and if not, what is bad: a check on the caller's words. REFERENCE 10.6,
// 10.12 to 10.14, 8.5, 8.8, 8.9.
#![tactic(auto)]

mod capacities; // capacities.rt: the counts of the header
mod records; // records.rt: one vertex record, one edge record
mod passes; // passes.rt: each part in turn, over scratch

ghost use Rattle.std.specs.Prelude.{◌≡◌};
ghost use Rattle.image_check.specs.Checks.{checked, saved_bounds, verdict, bad_code, bad_offset};

use graph::{MOST_EDGES, MOST_TYPES, MOST_VERTICES};
use image::by_name::Part;
use image::header::sound;
use image::layout::record_size;
use passes::{Limits, Parts};

/// What is bad about words that no graph saves as.
#[derive(Clone, Copy, Debug, PartialEq, Eq)]
pub enum BadImage {
    /// The header or a count.
    Header,
    /// The word at this offset, in a record: the first that cannot follow those read before.
    Record(u32),
    /// The word at this offset, in a list: the first that cannot follow those read before.
    Incidence(u32),
}

impl BadImage {
    /// The code that a refusal has.
    pub fn code(self) -> u32
        ensures { result ≡ bad_code self }
    {
        match self {
            BadImage::Header => 105,
            BadImage::Record(_) => 108,
            BadImage::Incidence(_) => 109,
        }
    }

    /// The offset of the first bad word, from 0 at the first word; 0 for a header, which names none.
    pub fn offset(self) -> u32
        ensures { result ≡ bad_offset self }
    {
        match self {
            BadImage::Header => 0,
            BadImage::Record(at) | BadImage::Incidence(at) => at,
        }
    }
}

/// Whether the words are those that some graph within the capacities and types saves as. A refusal says what is bad.
/// Capacities above the limits of a run are checked as these: the scratch of the check is made for them. So they come as
/// numbers, of which any may be asked (what may not change), and `Limits` holds what is left of them.
pub fn check(words: &[u32], vertices: u32, edges: u32, types: u32) -> Result<(), BadImage>
    ensures { result ≡ verdict (checked vertices edges types) words.now }
{
    if !sound(words) {
        return Err(BadImage::Header);
    }
    let v = lists::get(words, 0);
    let e = lists::get(words, 1);
    let limits = Limits {
        vertices: MOST_VERTICES.min(vertices),
        edges: MOST_EDGES.min(edges),
        types,
    };
    if !capacities::counts(limits.vertices, limits.edges, v, e) {
        return Err(BadImage::Header);
    }
    // No vertex, so no edge and no list: the scratch is not needed.
    if v == 0 {
        return Ok(());
    }
    let parts = Parts {
        vertices: Part::Vertices.within(words),
        edges: Part::Edges.within(words),
        incidences: Part::Incidences.within(words),
        size: record_size(words),
    };
    parts.check(limits)
}

/// The same for words by themselves, whatever a run elsewhere is lent.
pub fn check_saved(words: &[u32]) -> Result<(), BadImage>
    ensures { result ≡ verdict saved_bounds words.now }
{
    check(words, MOST_VERTICES, MOST_EDGES, MOST_TYPES)
}
