// The parts of an image, from the tables: each function writes words from a place on. The walks go along links, so
// `while x != 0` and not `for`: that a list ends is a fact of tables that hold one, not of every table.
// A caller has tables that hold a graph and room for its image, as 106 saw to.
ghost use Rattle.std.specs.Prelude.{◌≡◌, ℕ, ◌+◌, ◌≤◌, ◌<◌, ◌^◌, length};
ghost use Rattle.std.proofs.lemmas.List.Edits.{sets};
ghost use Rattle.graph.specs.Limits.{most_vertices, most_edges};
ghost use Rattle.image.specs.Image.{vertex_size, header_of};
ghost use Rattle.graph_tables.specs.Tables.{VertexRowIn, EdgeRowIn, vertex_links, edge_links, incidence_links};
ghost use Rattle.graph_tables.specs.Tables.{vertex_list_ends, edge_list_ends, vertex_ends};
ghost use Rattle.image_tables.specs.Words.{vertex_words, edge_words, list_words, vertex_part_of, edge_part_of};
ghost use Rattle.image_tables.specs.Words.{incidence_part_of};
ghost use Rattle.image_tables.specs.Words.{HasRoom, HoldsSome};

use graph_tables::Head;
use graph_tables::fields::{EDGE_LINKS, INCIDENCE_LINKS, VERTEX_LINKS, VERTEX_TYPE, VERTEX_VALUE};
use graph_tables::rows::{edge_fields, ends_of, vertex_field};
use image::layout::{EDGE, HEADER, VERTEX, edge_offset, incidence_offset};

/// V, E, the three offsets, the total.
pub fn header(out: &mut [u32], v: u32, e: u32)
    requires { (v ≤ most_vertices) × (e ≤ most_edges) × (6 ≤ length out.old) }
    ensures { out.new ≡ sets out.old 0 (header_of vertex_size v e) }
{
    let edges = edge_offset(v);
    let lists = incidence_offset(v, e);
    let total = image::layout::length(v, e);
    out[..HEADER].copy_from_slice(&[
        v,
        e,
        HEADER as u32,
        edges as u32,
        lists as u32,
        total as u32,
    ]);
}

// The record of edge e. The two words of its reading are saved as they stand, so that no branch asks for its kind.
fn edge(edges: &[u32], e: u32, out: &mut [u32], at: usize)
    requires { EdgeRowIn edges.now e × HasRoom at (edge_words edges.now e) out.old }
    ensures { out.new ≡ sets out.old at (edge_words edges.now e) }
{
    let w = edge_fields(edges, e);
    out[at..at + EDGE].copy_from_slice(&[e, w.alpha, w.omega, w.sort, w.kind, w.decimetres]);
}

/// The edge part.
pub fn edges(head: Head, edges: &[u32], out: &mut [u32], from: usize)
    requires { HoldsSome edge_links edges.now (edge_list_ends head)
        × HasRoom from (edge_part_of head edges.now) out.old }
    ensures { out.new ≡ sets out.old from (edge_part_of head edges.now) }
{
    let ends = head.edge_ends();
    let mut at = from;
    let mut e = EDGE_LINKS.next(edges, ends, 0);
    while e != 0 {
        edge(edges, e, out, at);
        at += EDGE;
        e = EDGE_LINKS.next(edges, ends, e);
    }
}

// The incidence list of v.
fn list(vertices: &[u32], edges: &[u32], v: u32, out: &mut [u32], from: usize) -> usize
    requires { VertexRowIn vertices.now v × HoldsSome incidence_links edges.now (vertex_ends vertices.now v)
        × HasRoom from (list_words vertices.now edges.now v) out.old }
    ensures { (out.new ≡ sets out.old from
        (list_words vertices.now edges.now v))
        × (result ≡ from + length (list_words vertices.now edges.now v)) }
{
    let ends = ends_of(vertices, v);
    let mut at = from;
    let mut w = INCIDENCE_LINKS.next(edges, ends, 0);
    while w != 0 {
        out[at] = w;
        at += 1;
        w = INCIDENCE_LINKS.next(edges, ends, w);
    }
    at
}

// The record of vertex v at `at`, and its list at `to`, behind the records: the list comes first, and its length is the
// degree. Tells the place behind the list.
fn vertex(vertices: &[u32], edges: &[u32], v: u32, out: &mut [u32], at: usize, to: usize) -> usize
    requires { VertexRowIn vertices.now v × HoldsSome incidence_links edges.now (vertex_ends vertices.now v)
        × (at + 4 ≤ to) × HasRoom to (list_words vertices.now edges.now v) out.old
        × (length (list_words vertices.now edges.now v) < 2 ^ 32) }
    ensures { (out.new
        ≡ sets (sets out.old to (list_words vertices.now edges.now v))
        at (vertex_words vertices.now edges.now v))
        × (result ≡ to + length (list_words vertices.now edges.now v)) }
{
    let end = list(vertices, edges, v, out, to);
    let sort = vertex_field(vertices, v, VERTEX_TYPE);
    let value = vertex_field(vertices, v, VERTEX_VALUE);
    out[at..at + VERTEX].copy_from_slice(&[v, sort, value, (end - to) as u32]);
    end
}

/// The vertex part from `from` on and the incidence part from `behind` on, vertex by vertex on one walk. Tells the place
/// behind the lists.
pub fn vertices(
    head: Head,
    vertices: &[u32],
    edges: &[u32],
    out: &mut [u32],
    from: usize,
    behind: usize,
) -> usize
    requires { HoldsSome vertex_links vertices.now (vertex_list_ends head) × ((v : ℕ) → 1 ≤ v
        → HoldsSome incidence_links edges.now (vertex_ends vertices.now v))
        × (from + length (vertex_part_of head vertices.now edges.now) ≤ behind)
        × HasRoom behind (incidence_part_of head vertices.now edges.now) out.old
        × (length (incidence_part_of head vertices.now edges.now) < 2 ^ 32) }
    ensures { (out.new
        ≡ sets (sets out.old from (vertex_part_of head vertices.now edges.now))
        behind (incidence_part_of head vertices.now edges.now))
        × (result ≡ behind + length (incidence_part_of head vertices.now edges.now)) }
{
    let ends = head.vertex_ends();
    let mut at = from;
    let mut to = behind;
    let mut v = VERTEX_LINKS.next(vertices, ends, 0);
    while v != 0 {
        to = vertex(vertices, edges, v, out, at, to);
        at += VERTEX;
        v = VERTEX_LINKS.next(vertices, ends, v);
    }
    to
}
