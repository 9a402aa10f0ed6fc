// The layout of an image, in words: header, records, where the parts begin (REFERENCE 10.1 to 10.4). Counts may be any
// words, so the sums are those of 64 bits.
ghost use Rattle.std.specs.Prelude.{◌≡◌, ◌≤◌};
ghost use Rattle.image.specs.Image.{vertex_size, edge_offset, incidence_offset, image_length, record_size};

use crate::by_size;
use lists::get;

pub const HEADER: usize = 6;
/// A vertex record as it is saved.
pub const VERTEX: usize = 4;
/// A vertex record as older images have it, without a degree.
pub const OLD_VERTEX: usize = 3;

pub const EDGE: usize = 6;

// These three are by_size's for records as they are saved, and as short as a size at each call would be.

/// Where the edge part of what is saved begins, behind v vertices.
pub fn edge_offset(v: u32) -> usize
    ensures { result ≡ edge_offset vertex_size v }
{
    by_size::edge_offset(VERTEX, v as usize)
}

/// Where its lists begin, behind e edges.
pub fn incidence_offset(v: u32, e: u32) -> usize
    ensures { result ≡ incidence_offset vertex_size v e }
{
    by_size::incidence_offset(VERTEX, v as usize, e as usize)
}

/// The words of the whole.
pub fn length(v: u32, e: u32) -> usize
    ensures { result ≡ image_length v e }
{
    by_size::length(VERTEX, v as usize, e as usize)
}

/// The words of a vertex record, by the offset of the edge part.
pub fn record_size(words: &[u32]) -> usize
    ensures { (result ≡ record_size words.now) × (result ≤ 4) }
{
    let v = get(words, 0) as usize;
    let offset = get(words, 3) as usize;
    if offset == by_size::edge_offset(VERTEX, v) {
        return VERTEX;
    }
    if offset == by_size::edge_offset(OLD_VERTEX, v) {
        return OLD_VERTEX;
    }
    VERTEX
}
