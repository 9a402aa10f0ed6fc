// Is a number in the graph, and where does its row start. Any number may be asked for.
ghost use Rattle.std.specs.Prelude.{◌≡◌, ◌/◌, ◌<◌};
ghost use Rattle.graph_tables.specs.Tables.{found_row, lookup_vertex, lookup_edge};

use crate::fields::{EDGE_LIVE, EDGE_WORDS, VERTEX_LIVE, VERTEX_WORDS};
use crate::{Lookup, Tables};

// Where the row of number n starts, in a table of rows of so many words, of which word LIVE is 0 where the row is not
// used. One test is for 0 and for what is past the table: 0 less 1 is past every row.
#[inline(always)]
fn find<const WORDS: usize, const LIVE: usize>(table: &[u32], n: u32) -> Lookup
    requires { LIVE < WORDS }
    ensures { result ≡ found_row WORDS LIVE table.now n }
{
    let n = n as usize;
    if table.len() / WORDS <= n.wrapping_sub(1) {
        return Lookup::Missing;
    }
    let at = WORDS * n - WORDS;
    if table[at + LIVE] == 0 {
        Lookup::Missing
    } else {
        Lookup::Found(at)
    }
}

/// Where v's row starts.
#[inline(always)]
pub fn find_vertex(vertices: &[u32], v: u32) -> Lookup
    ensures { result ≡ lookup_vertex vertices.now v }
{
    find::<VERTEX_WORDS, VERTEX_LIVE>(vertices, v)
}

/// Where e's row starts.
#[inline(always)]
pub fn find_edge(edges: &[u32], e: u32) -> Lookup
    ensures { result ≡ lookup_edge edges.now e }
{
    find::<EDGE_WORDS, EDGE_LIVE>(edges, e)
}

/// Where the row of word w's edge starts: an oriented word stands for its edge (REFERENCE 2.4).
#[inline(always)]
pub fn find_word(edges: &[u32], w: u32) -> Lookup
    ensures { result ≡ lookup_edge edges.now (w / 2) }
{
    find_edge(edges, w / 2)
}

impl<'t> Tables<'t> {
    /// Where v's row starts.
    #[inline(always)]
    pub fn find_vertex(&self, v: u32) -> Lookup
        ensures { result ≡ lookup_vertex self.now.vertices.now v }
    {
        find_vertex(self.vertices, v)
    }

    /// Where e's row starts.
    #[inline(always)]
    pub fn find_edge(&self, e: u32) -> Lookup
        ensures { result ≡ lookup_edge self.now.edges.now e }
    {
        find_edge(self.edges, e)
    }

    /// Where the row of word w's edge starts.
    #[inline(always)]
    pub fn find_word(&self, w: u32) -> Lookup
        ensures { result ≡ lookup_edge self.now.edges.now (w / 2) }
    {
        find_word(self.edges, w)
    }
}
