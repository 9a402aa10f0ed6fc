// Where the parts of an image begin, by the words of a vertex record: saved words and old ones alike.
// A caller has counts that are words, and a size that `record_size` gave. The three functions are public and named
// in pages: a struct would ask callers for more than numbers, which may not change.
ghost use Rattle.std.specs.Prelude.{◌≡◌, ◌+◌, ◌*◌, ◌≤◌, ◌<◌, ◌^◌};
ghost use Rattle.image.specs.Image.{edge_offset, incidence_offset, length_as};

use crate::layout::{EDGE, HEADER};

/// Where the edge part begins behind v vertex records of size words.
pub fn edge_offset(size: usize, v: usize) -> usize
    requires { (size ≤ 4) × (v < 2 ^ 32) }
    ensures { (result ≡ edge_offset size v) × (result ≤ 6 + 4 * v) }
{
    HEADER + size * v
}

/// Where the lists begin, behind e edges.
pub fn incidence_offset(size: usize, v: usize, e: usize) -> usize
    requires { (size ≤ 4) × (v < 2 ^ 32) × (e < 2 ^ 32) }
    ensures { (result ≡ incidence_offset size v e) × (result ≤ 6 + 4 * v + 6 * e) }
{
    edge_offset(size, v) + EDGE * e
}

/// The words of the whole: an edge is in two lists.
pub fn length(size: usize, v: usize, e: usize) -> usize
    requires { (size ≤ 4) × (v < 2 ^ 32) × (e < 2 ^ 32) }
    ensures { (result ≡ length_as size v e) × (result ≤ 6 + 4 * v + 8 * e) }
{
    edge_offset(size, v) + (EDGE + 2) * e
}
