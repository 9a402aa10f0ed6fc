// A graph in lent tables of words: 8 words a vertex, 12 an edge. Number 0 is none, and so are the words 0 and 1.
#![tactic(auto)]

ghost use Rattle.std.specs.Prelude.{◌≡◌};
ghost use Rattle.graph_tables.specs.Tables.{vertex_list_ends, edge_list_ends, with_vertex_ends, with_edge_ends};

use graph::Reading;
use linked_lists::Ends;

pub mod clear; // the empty graph
pub mod fields; // the words of a row by name
pub mod rows; // the words of one vertex and of one edge
pub mod incidence; // words put into incidence lists, taken out and moved
pub mod vertices; // vertices put in, taken out, set and moved
pub mod edges; // edges put in, taken out, set and moved
pub mod edits; // the nine edits
pub mod lookups; // is a number in the graph

/// The lent tables. Nothing outside them is written, and the head is a record of its own. Every method is inlined: one
/// that is called apart reads two pointers and two lengths anew after each store, and undos take 83 in 100 more.
#[derive(Drop)]
pub struct Tables<'t> {
    pub vertices: &'t mut [u32],
    pub edges: &'t mut [u32],
}

/// The two tables, lent to read alone: whoever has two shared slices makes one of them, and `Tables::view` gives one.
#[derive(Clone, Copy, Debug, PartialEq, Eq)]
pub struct TablesView<'t> {
    pub vertices: &'t [u32],
    pub edges: &'t [u32],
}

impl<'t> Tables<'t> {
    /// The tables, to read alone.
    #[inline(always)]
    pub fn view(&self) -> TablesView<'_>
        ensures vertices { result.vertices.now ≡ self.now.vertices.now }
        ensures edges { result.edges.now ≡ self.now.edges.now }
    {
        TablesView {
            vertices: self.vertices,
            edges: self.edges,
        }
    }
}

/// Ends of the two orders, and how many vertices and edges there are. Its six words stand by themselves: with an `Ends`
/// of each order in it, changes and undos take 6 to 17 instructions in 100 more, since a pair of words is moved as one
/// and split again (tried, misses the bar of speed).
#[derive(Clone, Copy, Debug, Default, PartialEq, Eq)]
pub struct Head {
    pub vfirst: u32,
    pub vlast: u32,
    pub efirst: u32,
    pub elast: u32,
    pub vertices: u32,
    pub edges: u32,
}

impl Head {
    /// The ends of Vseq.
    #[inline(always)]
    pub fn vertex_ends(self) -> Ends
        ensures { result ≡ vertex_list_ends self }
    {
        Ends {
            first: self.vfirst,
            last: self.vlast,
        }
    }

    /// The ends of Eseq.
    #[inline(always)]
    pub fn edge_ends(self) -> Ends
        ensures { result ≡ edge_list_ends self }
    {
        Ends {
            first: self.efirst,
            last: self.elast,
        }
    }

    /// The head with other ends of Vseq.
    #[inline(always)]
    pub fn with_vertex_ends(self, ends: Ends) -> Head
        ensures { result ≡ with_vertex_ends ends self }
    {
        Head {
            vfirst: ends.first,
            vlast: ends.last,
            ..self
        }
    }

    /// The head with other ends of Eseq.
    #[inline(always)]
    pub fn with_edge_ends(self, ends: Ends) -> Head
        ensures { result ≡ with_edge_ends ends self }
    {
        Head {
            efirst: ends.first,
            elast: ends.last,
            ..self
        }
    }
}

/// An edge: its number, its ends, its type and its reading.
#[derive(Clone, Copy, Debug, PartialEq, Eq)]
pub struct EdgeRecord {
    pub number: u32,
    pub alpha: u32,
    pub omega: u32,
    pub sort: u32,
    pub reading: Reading,
}

/// What the row of an edge says of it, as words: its ends, its type, and kind and decimetres of its reading.
#[derive(Clone, Copy, Debug, PartialEq, Eq)]
pub struct EdgeFields {
    pub alpha: u32,
    pub omega: u32,
    pub sort: u32,
    pub kind: u32,
    pub decimetres: u32,
}

/// Where an edge is put in: after which edge of Eseq, and after which words of the two incidence lists.
#[derive(Clone, Copy, Debug, PartialEq, Eq)]
pub struct Places {
    pub order: u32,
    pub out: u32,
    pub into: u32,
}

/// What a look-up of a number returns: where its row starts, or that the graph does not have it. Not an `Option`: what
/// may not change (DECISIONS 71, TRACE: a look-up says Found or Missing, and its callers leave by `let .. else`).
#[derive(Clone, Copy, Debug, PartialEq, Eq)]
pub enum Lookup {
    Found(usize),
    Missing,
}

/// The same head, built word by word. What may not change: DECISIONS 19 names it, since the
/// compiler keeps the words of a record that is built so in registers.
pub fn same(head: Head) -> Head
    ensures { result ≡ head }
{
    Head {
        vfirst: head.vfirst,
        vlast: head.vlast,
        efirst: head.efirst,
        elast: head.elast,
        vertices: head.vertices,
        edges: head.edges,
    }
}
