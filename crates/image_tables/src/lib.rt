// Images into the tables and out of them.
#![tactic(auto)]

mod fill; // fill.rt: the tables, from the parts of an image
mod write; // write.rt: the parts of an image, from the tables

ghost use Rattle.std.specs.Prelude.{◌≡◌, length};
ghost use Rattle.lists.specs.Lists.{overwritten};
ghost use Rattle.graph.specs.Graph.{Graph};
ghost use Rattle.image.specs.Image.{save as save_of, load as load_of};
ghost use Rattle.graph_tables.specs.Tables.{state, state_of, SameLoan};
ghost use Rattle.graph_tables.specs.Holds.{Holds};
ghost use Rattle.image_tables.specs.Words.{CanSave};
ghost use Rattle.image_tables.specs.Filling.{CanLoad};

use graph_tables::{Head, Tables};
use image::layout::{HEADER, edge_offset, incidence_offset};

/// Writes the image of the graph that the tables hold to the front of `out`; the words beyond it stay. Returns how many
/// words it has.
pub fn save(head: Head, vertices: &[u32], edges: &[u32], out: &mut [u32]) -> usize
    requires { CanSave (state head vertices.now edges.now) (length out.old) }
    ensures { (g : Graph) → Holds (state head vertices.now edges.now) g
        → (out.new ≡ overwritten (save_of g) out.old) × (result ≡ length (save_of g)) }
{
    let v = head.vertices;
    let e = head.edges;
    write::header(out, v, e);
    write::edges(head, edges, out, edge_offset(v));
    write::vertices(head, vertices, edges, out, HEADER, incidence_offset(v, e))
}

/// Fills the tables, whatever they held, from words that `image_check::check` has found sound. Which words hold the
/// graph is left open, and so are the words of rows that hold nothing.
pub fn load_tables(tables: &mut Tables<'_>, words: &[u32]) -> Head
    requires { CanLoad words.now tables.old.vertices.now tables.old.edges.now }
    ensures loaded { Holds (state_of result tables.new) (load_of words.now) }
    ensures same_loan { SameLoan tables.old tables.new }
{
    let head = tables.clear();
    let head = fill::vertices(tables, head, words);
    let head = fill::edges(tables, head, words);
    fill::lists(tables, head, words);
    head
}

/// The same, of tables that are lent apart, as callers that hold slices have it (what may not change).
pub fn load(words: &[u32], vertices: &mut [u32], edges: &mut [u32]) -> Head
    requires { CanLoad words.now vertices.old edges.old }
    ensures { Holds (state result vertices.new edges.new) (load_of words.now) }
{
    load_tables(&mut Tables { vertices, edges }, words)
}
