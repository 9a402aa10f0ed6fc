// Is a before b: a walk along one list from a on. Three of one line each: one function would be told the list.
// A caller has tables that hold a graph, and names that are in it.
ghost use Rattle.std.specs.Prelude.{◌≡◌};
ghost use Rattle.lists.specs.Lists.{before};
ghost use Rattle.linked_lists.specs.Links.{HeldAt, nodes};
ghost use Rattle.graph_tables.specs.Tables.{VertexRowIn, HalfRowIn, vertex_links, edge_links, incidence_links};
ghost use Rattle.graph_tables.specs.Tables.{vertex_list_ends, edge_list_ends, vertex_ends, wthis};

use graph_tables::fields::{EDGE_LINKS, HALF_THIS, INCIDENCE_LINKS, VERTEX_LINKS};
use graph_tables::rows::{ends_of, half_field};
use graph_tables::{Head, TablesView};

/// Is vertex a before b in Vseq: a walk from a.
pub fn vertex_before(vertices: &[u32], head: Head, a: u32, b: u32) -> bool
    requires { HeldAt vertex_links vertices.now (vertex_list_ends head) a }
    ensures { result ≡ before a b (nodes vertex_links vertices.now (vertex_list_ends head)) }
{
    VERTEX_LINKS.before(vertices, head.vertex_ends(), a, b)
}

/// Is edge a before b in Eseq: a walk from a.
pub fn edge_before(edges: &[u32], head: Head, a: u32, b: u32) -> bool
    requires { HeldAt edge_links edges.now (edge_list_ends head) a }
    ensures { result ≡ before a b (nodes edge_links edges.now (edge_list_ends head)) }
{
    EDGE_LINKS.before(edges, head.edge_ends(), a, b)
}

/// Is word a before b in a's list: a walk from a.
pub fn word_before(tables: &TablesView<'_>, a: u32, b: u32) -> bool
    requires half { HalfRowIn tables.now.edges.now a }
    requires row { VertexRowIn tables.now.vertices.now (wthis tables.now.edges.now a) }
    requires held { HeldAt incidence_links tables.now.edges.now
        (vertex_ends tables.now.vertices.now (wthis tables.now.edges.now a)) a }
    ensures { result ≡ before a b (nodes incidence_links tables.now.edges.now
        (vertex_ends tables.now.vertices.now (wthis tables.now.edges.now a))) }
{
    let v = half_field(tables.edges, a, HALF_THIS);
    INCIDENCE_LINKS.before(tables.edges, ends_of(tables.vertices, v), a, b)
}
