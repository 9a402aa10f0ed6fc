// Two images of one path, compared: the edges that they share, those of them whose readings agree, and those that only
// one has.
#![tactic(auto)]

ghost use Rattle.std.specs.Prelude.{◌≡◌, ◌≤◌, ◌*◌, ◌^◌, ℕ, length};
ghost use Rattle.graph.specs.Limits.{most_edges};
ghost use Rattle.comparison.specs.Comparison.{matches, agrees, alike, comparison, not_compared_code, told};
ghost use Rattle.comparison.specs.Walks.{edge_at, noted, places_of, paired_from};

use graph::{MOST_EDGES, Reading};
use image::by_name::Part;
use image::layout::EDGE;
use image_check::{BadImage, check_saved};
use lists::get;
use lists::words::put;

/// What two images have in common, in edges.
#[derive(Clone, Copy, Debug, PartialEq, Eq)]
pub struct Counts {
    /// Edges that both have, with the same ends.
    pub matched: u32,
    /// Those of them whose readings agree.
    pub agreeing: u32,
    /// Edges that only the first has.
    pub first: u32,
    /// Edges that only the second has.
    pub second: u32,
}

/// Why two images are not compared.
#[derive(Clone, Copy, Debug, PartialEq, Eq)]
pub enum NotCompared {
    /// The first does not load.
    First(BadImage),
    /// The second does not load, and the first does.
    Second,
}

impl NotCompared {
    /// The code of the first image that does not load, or 110.
    pub fn code(self) -> u32
        ensures { result ≡ not_compared_code self }
    {
        match self {
            NotCompared::First(bad) => bad.code(),
            NotCompared::Second => 110,
        }
    }
}

/// What C is told: a code and four counts; with a code all four are 0.
#[repr(C)]
#[derive(Clone, Copy, Debug, PartialEq, Eq)]
pub struct Compared {
    pub code: u32,
    pub matched: u32,
    pub agreeing: u32,
    /// Edges that only the first has.
    pub first: u32,
    /// Edges that only the second has.
    pub second: u32,
}

impl From<Result<Counts, NotCompared>> for Compared {
    ghost from_gives = { λ came answer. answer ≡ told came };

    fn from(came: Result<Counts, NotCompared>) -> Compared {
        match came {
            Ok(counts) => Compared {
                code: 0,
                matched: counts.matched,
                agreeing: counts.agreeing,
                first: counts.first,
                second: counts.second,
            },
            Err(refusal) => Compared {
                code: refusal.code(),
                matched: 0,
                agreeing: 0,
                first: 0,
                second: 0,
            },
        }
    }
}

// Scratch: a word for each edge number from 0 on.
const PLACES: usize = MOST_EDGES as usize + 1;

// In these three b's record is told by a place. A number that is noted nowhere leads to b's first record, which need not be
// there, so no slice of six words stands for it; `near` keeps the places behind j from wrapping.

/// Whether an edge record and the one at j have one number and the same ends.
fn is_match(edge: &[u32], b: &[u32], j: usize) -> bool
    requires six { length edge.now ≡ 6 }
    requires near { j ≤ 2 ^ 40 }
    ensures { result ≡ matches (edge_at edge.now 0) (edge_at b.now j) }
{
    edge[0] == get(b, j) && edge[1] == get(b, j + 1) && edge[2] == get(b, j + 2)
}

/// Whether two readings agree: both heard and at most the tolerance apart, or neither heard and of one kind.
fn agree(tolerance: u32, x: Reading, y: Reading) -> bool
    ensures { result ≡ agrees tolerance x y }
{
    match (x, y) {
        (Reading::Heard(d), Reading::Heard(e)) => d.abs_diff(e) <= tolerance,
        _ => x == y,
    }
}

/// The reading of the record at a place.
fn reading_at(words: &[u32], at: usize) -> Reading
    requires { at ≤ 2 ^ 40 }
    ensures { result ≡ (edge_at words.now at).reading }
{
    Reading::from_words(get(words, at + 4), get(words, at + 5))
}

/// Whether they match and their readings agree.
fn is_alike(edge: &[u32], b: &[u32], j: usize, tolerance: u32) -> bool
    requires six { length edge.now ≡ 6 }
    requires near { j ≤ 2 ^ 40 }
    ensures { result ≡ alike tolerance (edge_at edge.now 0) (edge_at b.now j) }
{
    is_match(edge, b, j) && agree(tolerance, reading_at(edge, 0), reading_at(b, j))
}

/// Notes under the number of each record which record it is, from 0.
fn note(part: &[u32], places: &mut [u32])
    requires { length part.now ≤ 6 * most_edges }
    ensures { (count : ℕ) → 6 * count ≡ length part.now → places.new ≡ noted places.old 0 count part.now }
{
    for (i, record) in part.chunks_exact(EDGE).enumerate() {
        put(places, record[0] as usize, i as u32);
    }
}

#[derive(Clone, Copy, Debug, PartialEq, Eq)]
struct Tally {
    matched: u32,
    agreeing: u32,
}

/// Each record of a beside the one of b that is noted for its number.
fn counted(a: &[u32], b: &[u32], places: &[u32], tolerance: u32) -> Tally
    requires { length a.now ≤ 6 * most_edges }
    ensures matched { (count : ℕ) → 6 * count ≡ length a.now
        → result.matched ≡ paired_from matches places.now b.now count a.now }
    ensures agreeing { (count : ℕ) → 6 * count ≡ length a.now
        → result.agreeing ≡ paired_from (alike tolerance) places.now b.now count a.now }
{
    let mut matched: u32 = 0;
    let mut agreeing: u32 = 0;
    for record in a.chunks_exact(EDGE) {
        let j = EDGE * get(places, record[0] as usize) as usize;
        matched += u32::from(is_match(record, b, j));
        agreeing += u32::from(is_alike(record, b, j, tolerance));
    }
    Tally { matched, agreeing }
}

/// The records of a beside those of b.
fn walked(a: &[u32], b: &[u32], tolerance: u32) -> Tally
    requires first { length a.now ≤ 6 * most_edges }
    requires second { length b.now ≤ 6 * most_edges }
    ensures matched { (m n : ℕ) → 6 * m ≡ length a.now → 6 * n ≡ length b.now
        → result.matched ≡ paired_from matches (places_of n b.now) b.now m a.now }
    ensures agreeing { (m n : ℕ) → 6 * m ≡ length a.now → 6 * n ≡ length b.now
        → result.agreeing ≡ paired_from (alike tolerance) (places_of n b.now) b.now m a.now }
{
    let mut places = [0u32; PLACES];
    note(b, &mut places);
    counted(a, b, &places, tolerance)
}

/// Two images, held against each other. The first that does not load is refused.
pub fn compare(first: &[u32], second: &[u32], tolerance: u32) -> Result<Counts, NotCompared>
    ensures { told result ≡ comparison first.now second.now tolerance }
{
    check_saved(first).map_err(NotCompared::First)?;
    check_saved(second).or(Err(NotCompared::Second))?;
    let c = walked(
        Part::Edges.within(first),
        Part::Edges.within(second),
        tolerance,
    );
    Ok(Counts {
        matched: c.matched,
        agreeing: c.agreeing,
        first: get(first, 1) - c.matched,
        second: get(second, 1) - c.matched,
    })
}
