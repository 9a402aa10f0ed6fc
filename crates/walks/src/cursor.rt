// A cursor in a vertex's incidence list: a lent slice and the present word, stepped by the caller. It goes by links, so
// `while cursor.word != 0` and not `for`: that a list ends is a fact of tables that hold one, not of every cursor.
ghost use Rattle.std.specs.Prelude.{◌≡◌};
ghost use Rattle.graph_tables.specs.Tables.{HalfRowIn, VertexRowIn, vfirst, wnext};

use graph_tables::TablesView;
use graph_tables::fields::VERTEX_FIRST;
use graph_tables::rows::{vertex_field, word_next};

/// The edge table, and the present oriented word; 0 after the last.
#[derive(Clone, Copy, Debug, PartialEq, Eq)]
pub struct Cursor<'a> {
    pub edges: &'a [u32],
    pub word: u32,
}

impl<'a> Cursor<'a> {
    /// At the first word of v's list.
    #[inline(always)]
    pub fn first(tables: &TablesView<'a>, v: u32) -> Cursor<'a>
        requires { VertexRowIn tables.now.vertices.now v }
        ensures edges { result.edges.now ≡ tables.now.edges.now }
        ensures word { result.word ≡ vfirst tables.now.vertices.now v }
    {
        Cursor {
            edges: tables.edges,
            word: vertex_field(tables.vertices, v, VERTEX_FIRST),
        }
    }

    /// Goes to the next word of the list.
    #[inline(always)]
    pub fn step(&mut self)
        requires { HalfRowIn self.old.edges.now self.old.word }
        ensures edges { self.new.edges ≡ self.old.edges }
        ensures word { self.new.word ≡ wnext self.old.edges.now self.old.word }
    {
        self.word = word_next(self.edges, self.word);
    }
}
