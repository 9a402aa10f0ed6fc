// The tables filled from the parts of an image: vertices, edges, then the words of the lists.
ghost use Rattle.std.specs.Prelude.{◌≡◌, [], map, ◌≤◌, length, get_or};
ghost use Rattle.image.specs.Image.{load as load_of};
ghost use Rattle.graph_tables.specs.declared.Head.{Head};
ghost use Rattle.graph_tables.specs.Tables.{state_of, SameLoan, CanInsertVertex};
ghost use Rattle.graph_tables.specs.Holds.{Core};
ghost use Rattle.image_tables.specs.Filling.{without_list, state_add_vertex, state_add_edge, state_add_word, CanEdge, CanWord};
ghost use Rattle.image_tables.specs.Filling.{CanLoad};

use graph_tables::fields::{EDGE_LINKS, HALF_THIS, INCIDENCE_LINKS};
use graph_tables::rows::{put_ends, put_fields, put_this};
use graph_tables::{Head, Tables};
use image::layout::{EDGE, record_size};

// Puts the vertex with these fields last in Vseq, with an empty list.
#[inline(always)]
#[tactic(auto, unfolding(crate::specs::Filling::state_add_vertex))]
fn vertex(tables: &mut Tables<'_>, head: Head, fields: &[u32]) -> Head
    requires words { 3 ≤ length fields.now }
    requires can { CanInsertVertex (get_or fields.now 0 0) head.vlast (state_of head tables.old) }
    ensures added { state_of result tables.new ≡ state_add_vertex fields.now 0 (state_of head tables.old) }
    ensures same_loan { SameLoan tables.old tables.new }
{
    tables.insert_vertex(head, fields[0], fields[1], fields[2], head.vlast)
}

// Puts the edge with these fields last in Eseq, without its words in the lists.
#[inline(always)]
#[tactic(auto, unfolding(crate::specs::Filling::state_add_edge, graph_tables::specs::Tables::state_place_edge))]
fn edge(tables: &mut Tables<'_>, head: Head, fields: &[u32]) -> Head
    requires words { length fields.now ≡ 6 }
    requires can { CanEdge fields.now 0 (state_of head tables.old) }
    ensures added { state_of result tables.new ≡ state_add_edge fields.now 0 (state_of head tables.old) }
    ensures same_loan { SameLoan tables.old tables.new }
{
    let number = fields[0];
    let ends = EDGE_LINKS.append(tables.edges, head.edge_ends(), number);
    put_fields(tables.edges, number, fields[3], fields[4], fields[5]);
    put_this(tables.edges, number, fields[1], fields[2]);
    Head {
        edges: head.edges + 1,
        ..head.with_edge_ends(ends)
    }
}

// Puts word w last in the list of the vertex that it is seen from.
#[inline(always)]
#[tactic(auto, unfolding(crate::specs::Filling::state_add_word, graph_tables::specs::Tables::state_attach))]
fn word(tables: &mut Tables<'_>, w: u32)
    requires { (head : Head) × CanWord w (state_of head tables.old) }
    ensures added { (head : Head) → state_of head tables.new ≡ state_add_word w (state_of head tables.old) }
    ensures same_loan { SameLoan tables.old tables.new }
{
    let v = tables.half_field(w, HALF_THIS);
    let ends = tables.ends_of(v);
    let ends = INCIDENCE_LINKS.append(tables.edges, ends, w);
    put_ends(tables.vertices, v, ends);
}

/// The vertices, into tables that hold nothing. Which words of the vertex table hold them is left open.
pub fn vertices(tables: &mut Tables<'_>, head: Head, words: &[u32]) -> Head
    requires can { CanLoad words.now tables.old.vertices.now tables.old.edges.now }
    requires core { Core (state_of head tables.old) [] [] }
    ensures core { Core (state_of result tables.new) (map without_list (load_of words.now).vseq) [] }
    ensures same_loan { SameLoan tables.old tables.new }
{
    let mut head = head;
    for record in image::part(words, 1).chunks_exact(record_size(words)) {
        head = vertex(tables, head, record);
    }
    head
}

/// The edges, behind the vertices. Which words of the edge table hold them is left open.
pub fn edges(tables: &mut Tables<'_>, head: Head, words: &[u32]) -> Head
    requires can { CanLoad words.now tables.old.vertices.now tables.old.edges.now }
    requires core { Core (state_of head tables.old) (map without_list (load_of words.now).vseq) [] }
    ensures core { Core (state_of result tables.new) (map without_list (load_of words.now).vseq)
        (load_of words.now).eseq }
    ensures same_loan { SameLoan tables.old tables.new }
{
    let mut head = head;
    for record in image::part(words, 2).chunks_exact(EDGE) {
        head = edge(tables, head, record);
    }
    head
}

/// The lists, behind the edges: the words of a list stand in its order, and each is seen from its vertex. Which words of
/// the two tables hold them is left open.
pub fn lists(tables: &mut Tables<'_>, head: Head, words: &[u32])
    requires can { CanLoad words.now tables.old.vertices.now tables.old.edges.now }
    requires core { Core (state_of head tables.old) (map without_list (load_of words.now).vseq)
        (load_of words.now).eseq }
    ensures core { Core (state_of head tables.new) (load_of words.now).vseq (load_of words.now).eseq }
    ensures same_loan { SameLoan tables.old tables.new }
{
    for &w in image::part(words, 3) {
        word(tables, w);
    }
}
