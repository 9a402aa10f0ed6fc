// The words of a row by name (REFERENCE 13.1, 13.2), and where the links of the three kinds of lists stand.
ghost use Rattle.std.specs.Prelude.{◌≡◌, ◌≤◌};
ghost use Rattle.graph_tables.specs.Tables.{vertex_place, edge_place, half_place};

use linked_lists::LinkLayout;

/// How many words the row of a vertex has.
pub const VERTEX_WORDS: usize = 8;

/// How many words the row of an edge has.
pub const EDGE_WORDS: usize = 12;

/// How many words the half of an oriented word has.
pub const HALF_WORDS: usize = 6;

// Of the row of a vertex. Word 5 is spare.

/// Whether the vertex is there.
pub const VERTEX_LIVE: usize = 0;

/// Its type.
pub const VERTEX_TYPE: usize = 1;

/// Its value.
pub const VERTEX_VALUE: usize = 2;

/// The first word of its list.
pub const VERTEX_FIRST: usize = 3;

/// The last word of its list.
pub const VERTEX_LAST: usize = 4;

/// The vertex before it in Vseq.
pub const VERTEX_PREV: usize = 6;

/// The vertex after it in Vseq.
pub const VERTEX_NEXT: usize = 7;

// Of a half, one for each oriented word of an edge.

/// The word before it in its list.
pub const HALF_PREV: usize = 0;

/// The word after it in its list.
pub const HALF_NEXT: usize = 1;

/// The vertex it is seen from.
pub const HALF_THIS: usize = 2;

// Of the row of an edge: its two halves, the out half first, have three words more each.

/// The vertex it starts from: that of its out half.
pub const EDGE_ALPHA: usize = 2;

/// Whether the edge is there.
pub const EDGE_LIVE: usize = 3;

/// Its type.
pub const EDGE_TYPE: usize = 4;

/// The kind of its reading.
pub const EDGE_KIND: usize = 5;

/// The vertex it goes to: that of its in half.
pub const EDGE_OMEGA: usize = 8;

/// The decimetres of its reading.
pub const EDGE_DECIMETRES: usize = 9;

/// The edge before it in Eseq.
pub const EDGE_PREV: usize = 10;

/// The edge after it in Eseq.
pub const EDGE_NEXT: usize = 11;

/// The links of Vseq.
pub const VERTEX_LINKS: LinkLayout = LinkLayout {
    stride: 8,
    offset: 2,
};

/// The links of Eseq.
pub const EDGE_LINKS: LinkLayout = LinkLayout {
    stride: 12,
    offset: 2,
};

/// The links of the incidence lists.
pub const INCIDENCE_LINKS: LinkLayout = LinkLayout {
    stride: 6,
    offset: 12,
};

/// Where the row of vertex v starts.
#[inline(always)]
pub(crate) fn vertex_row(v: u32) -> usize
    requires { 1 ≤ v }
    ensures { result ≡ vertex_place 0 v }
{
    VERTEX_WORDS * v as usize - VERTEX_WORDS
}

/// Where the row of edge e starts.
#[inline(always)]
pub(crate) fn edge_row(e: u32) -> usize
    requires { 1 ≤ e }
    ensures { result ≡ edge_place 0 e }
{
    EDGE_WORDS * e as usize - EDGE_WORDS
}

/// Where the half of oriented word w starts: words 2 and 3 are those of edge 1.
#[inline(always)]
pub(crate) fn half_row(w: u32) -> usize
    requires { 2 ≤ w }
    ensures { result ≡ half_place 0 w }
{
    HALF_WORDS * w as usize - EDGE_WORDS
}
