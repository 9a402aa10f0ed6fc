// The words of one vertex and of one edge.
// A caller has a number whose row is in the table: it looked the name up, or the tables hold a graph that has it.
ghost use Rattle.std.specs.Prelude.{◌≡◌, ◌<◌};
ghost use Rattle.graph.specs.Graph.{reading_of, IsWords};
ghost use Rattle.graph_tables.specs.Tables.{VertexRowIn, EdgeRowIn, HalfRowIn, vertex_field, edge_field};
ghost use Rattle.graph_tables.specs.Tables.{half_field, wnext, reading_at, edge_fields, vertex_ends, put_ends};
ghost use Rattle.graph_tables.specs.Tables.{table_vertex_row, table_edge_row, table_edge_this};

use crate::fields::{
    EDGE_ALPHA, EDGE_DECIMETRES, EDGE_KIND, EDGE_LIVE, EDGE_OMEGA, EDGE_TYPE, HALF_NEXT, HALF_THIS,
    VERTEX_FIRST, VERTEX_LAST, VERTEX_LIVE, VERTEX_TYPE, VERTEX_VALUE, edge_row, half_row,
    vertex_row,
};
use crate::{EdgeFields, Tables};
use graph::Reading;
use linked_lists::Ends;

impl<'t> Tables<'t> {
    /// Word `field` of the row of vertex v.
    #[inline(always)]
    pub fn vertex_field(&self, v: u32, field: usize) -> u32
        requires row { VertexRowIn self.now.vertices.now v }
        requires field { field < 8 }
        ensures { result ≡ vertex_field field self.now.vertices.now v }
    {
        vertex_field(self.vertices, v, field)
    }

    /// Word `field` of the row of edge e.
    #[inline(always)]
    pub fn edge_field(&self, e: u32, field: usize) -> u32
        requires row { EdgeRowIn self.now.edges.now e }
        requires field { field < 12 }
        ensures { result ≡ edge_field field self.now.edges.now e }
    {
        edge_field(self.edges, e, field)
    }

    /// Word `field` of the half of oriented word w.
    #[inline(always)]
    pub fn half_field(&self, w: u32, field: usize) -> u32
        requires row { HalfRowIn self.now.edges.now w }
        requires field { field < 6 }
        ensures { result ≡ half_field field self.now.edges.now w }
    {
        half_field(self.edges, w, field)
    }

    /// The ends of v's incidence list.
    #[inline(always)]
    pub fn ends_of(&self, v: u32) -> Ends
        requires { VertexRowIn self.now.vertices.now v }
        ensures { result ≡ vertex_ends self.now.vertices.now v }
    {
        ends_of(self.vertices, v)
    }

    /// What the row of edge e says of it. Removal and the edits of type and reading read an edge by this.
    #[inline(always)]
    pub fn edge_fields(&self, e: u32) -> EdgeFields
        requires { EdgeRowIn self.now.edges.now e }
        ensures { result ≡ edge_fields self.now.edges.now e }
    {
        edge_fields(self.edges, e)
    }

    /// The reading of edge e.
    #[inline(always)]
    pub fn reading_at(&self, e: u32) -> Reading
        requires { EdgeRowIn self.now.edges.now e }
        ensures { result ≡ reading_at self.now.edges.now e }
    {
        reading_at(self.edges, e)
    }
}

// Of one table, lent to read alone: what may not change, since docs/ name them so; and `image_tables::save` is lent its
// two tables to read.

/// Word `field` of the row of vertex v.
#[inline(always)]
pub fn vertex_field(vertices: &[u32], v: u32, field: usize) -> u32
    requires { VertexRowIn vertices.now v × (field < 8) }
    ensures { result ≡ vertex_field field vertices.now v }
{
    vertices[vertex_row(v) + field]
}

/// Word `field` of the row of edge e.
#[inline(always)]
pub fn edge_field(edges: &[u32], e: u32, field: usize) -> u32
    requires { EdgeRowIn edges.now e × (field < 12) }
    ensures { result ≡ edge_field field edges.now e }
{
    edges[edge_row(e) + field]
}

/// Word `field` of the half of oriented word w.
#[inline(always)]
pub fn half_field(edges: &[u32], w: u32, field: usize) -> u32
    requires { HalfRowIn edges.now w × (field < 6) }
    ensures { result ≡ half_field field edges.now w }
{
    edges[half_row(w) + field]
}

/// The reading of edge e.
#[inline(always)]
pub fn reading_at(edges: &[u32], e: u32) -> Reading
    requires { EdgeRowIn edges.now e }
    ensures { result ≡ reading_at edges.now e }
{
    Reading::from_words(
        edge_field(edges, e, EDGE_KIND),
        edge_field(edges, e, EDGE_DECIMETRES),
    )
}

/// The ends of v's incidence list.
#[inline(always)]
pub fn ends_of(vertices: &[u32], v: u32) -> Ends
    requires { VertexRowIn vertices.now v }
    ensures { result ≡ vertex_ends vertices.now v }
{
    Ends {
        first: vertex_field(vertices, v, VERTEX_FIRST),
        last: vertex_field(vertices, v, VERTEX_LAST),
    }
}

/// What the row of edge e says of it.
#[inline(always)]
pub fn edge_fields(edges: &[u32], e: u32) -> EdgeFields
    requires { EdgeRowIn edges.now e }
    ensures { result ≡ edge_fields edges.now e }
{
    EdgeFields {
        alpha: edge_field(edges, e, EDGE_ALPHA),
        omega: edge_field(edges, e, EDGE_OMEGA),
        sort: edge_field(edges, e, EDGE_TYPE),
        kind: edge_field(edges, e, EDGE_KIND),
        decimetres: edge_field(edges, e, EDGE_DECIMETRES),
    }
}

/// The word after w in its list: the step of a cursor, which holds the edge table alone.
#[inline(always)]
pub fn word_next(edges: &[u32], w: u32) -> u32
    requires { HalfRowIn edges.now w }
    ensures { result ≡ wnext edges.now w }
{
    edges[half_row(w) + HALF_NEXT]
}

// What writes to one table is lent that table alone: the edits are methods that write by these.

/// Writes the ends of v's incidence list.
#[inline(always)]
#[tactic(auto, unfolding(crate::specs::Tables::put_ends))]
pub fn put_ends(vertices: &mut [u32], v: u32, ends: Ends)
    requires { VertexRowIn vertices.old v }
    ensures { vertices.new ≡ put_ends v ends vertices.old }
{
    let at = vertex_row(v);
    vertices[at + VERTEX_FIRST] = ends.first;
    vertices[at + VERTEX_LAST] = ends.last;
}

/// Writes v's own words: whether it is there, type and value.
#[inline(always)]
#[tactic(auto, unfolding(crate::specs::Tables::table_vertex_row))]
pub fn put_vertex(vertices: &mut [u32], v: u32, live: u32, sort: u32, value: u32)
    requires { VertexRowIn vertices.old v }
    ensures { vertices.new ≡ table_vertex_row v live sort value vertices.old }
{
    let at = vertex_row(v);
    vertices[at + VERTEX_LIVE] = live;
    vertices[at + VERTEX_TYPE] = sort;
    vertices[at + VERTEX_VALUE] = value;
}

/// Writes e's own words: whether it is there, type and reading.
#[inline(always)]
#[tactic(auto, unfolding(crate::specs::Tables::table_edge_row))]
pub fn put_edge(edges: &mut [u32], e: u32, live: u32, sort: u32, reading: Reading)
    requires { EdgeRowIn edges.old e }
    ensures { edges.new ≡ table_edge_row e live sort reading edges.old }
{
    let at = edge_row(e);
    edges[at + EDGE_LIVE] = live;
    edges[at + EDGE_TYPE] = sort;
    edges[at + EDGE_KIND] = reading.kind();
    edges[at + EDGE_DECIMETRES] = reading.decimetres();
}

/// Makes e live, with its type and reading. The two words of a reading are written as they stand, so that no branch asks
/// for its kind (DECISIONS 19, 92).
#[inline(always)]
#[tactic(auto, unfolding(crate::specs::Tables::table_edge_row))]
pub fn put_fields(edges: &mut [u32], e: u32, sort: u32, kind: u32, heard: u32)
    requires { EdgeRowIn edges.old e × IsWords kind heard }
    ensures { edges.new ≡ table_edge_row e 1 sort (reading_of kind heard) edges.old }
{
    let at = edge_row(e);
    edges[at + EDGE_LIVE] = 1;
    edges[at + EDGE_TYPE] = sort;
    edges[at + EDGE_KIND] = kind;
    edges[at + EDGE_DECIMETRES] = heard;
}

/// Writes e's two ends.
#[inline(always)]
#[tactic(auto, unfolding(crate::specs::Tables::table_edge_this))]
pub fn put_this(edges: &mut [u32], e: u32, a: u32, z: u32)
    requires { EdgeRowIn edges.old e }
    ensures { edges.new ≡ table_edge_this e a z edges.old }
{
    let at = edge_row(e);
    edges[at + EDGE_ALPHA] = a;
    edges[at + EDGE_OMEGA] = z;
}
