// Vertices put in, taken out, set and moved.
// A caller has tables that hold a graph to which the edit applies, or lists that are held: `Can` of the edit.
ghost use Rattle.std.specs.Prelude.{◌≡◌};
ghost use Rattle.linked_lists.specs.Links.{CanMove};
ghost use Rattle.graph_tables.specs.declared.Head.{Head};
ghost use Rattle.graph_tables.specs.Tables.{state_of, SameLoan, vertex_list_ends, vertex_links, VertexRowIn};
ghost use Rattle.graph_tables.specs.Tables.{state_set_vertex, state_move_vertex};
ghost use Rattle.graph_tables.specs.Tables.{state_insert_vertex, CanInsertVertex, state_remove_vertex, CanRemoveVertex};

use crate::fields::VERTEX_LINKS;
use crate::rows::put_vertex;
use crate::{Head, Tables};

impl<'t> Tables<'t> {
    /// Sets type and value of v.
    #[tactic(auto, unfolding(crate::specs::Tables::state_set_vertex))]
    #[inline(always)]
    pub fn set_vertex(&mut self, v: u32, sort: u32, value: u32)
        requires { VertexRowIn self.old.vertices.now v }
        ensures set { (head : Head) → state_of head self.new ≡ state_set_vertex v sort value (state_of head self.old) }
        ensures same_loan { SameLoan self.old self.new }
    {
        put_vertex(self.vertices, v, 1, sort, value);
    }

    /// Puts vertex n after p in Vseq.
    #[tactic(auto, unfolding(crate::specs::Tables::state_move_vertex))]
    #[inline(always)]
    pub fn move_vertex(&mut self, head: Head, n: u32, p: u32) -> Head
        requires { CanMove vertex_links n p self.old.vertices.now (vertex_list_ends head) }
        ensures moved { state_of result self.new ≡ state_move_vertex n p (state_of head self.old) }
        ensures same_loan { SameLoan self.old self.new }
    {
        let ends = VERTEX_LINKS.relink(self.vertices, head.vertex_ends(), n, p);
        head.with_vertex_ends(ends)
    }

    /// Puts vertex n, with an empty list, into Vseq after p.
    #[tactic(auto, unfolding(crate::specs::Tables::state_insert_vertex))]
    #[inline(always)]
    pub fn insert_vertex(&mut self, head: Head, n: u32, sort: u32, value: u32, p: u32) -> Head
        requires { CanInsertVertex n p (state_of head self.old) }
        ensures inserted { state_of result self.new ≡ state_insert_vertex n sort value p (state_of head self.old) }
        ensures same_loan { SameLoan self.old self.new }
    {
        let ends = VERTEX_LINKS.insert_after(self.vertices, head.vertex_ends(), p, n);
        put_vertex(self.vertices, n, 1, sort, value);
        Head {
            vertices: head.vertices + 1,
            ..head.with_vertex_ends(ends)
        }
    }

    /// Takes vertex n, whose list is empty, out of Vseq.
    #[tactic(auto, unfolding(crate::specs::Tables::state_remove_vertex))]
    #[inline(always)]
    pub fn remove_vertex(&mut self, head: Head, n: u32) -> Head
        requires { CanRemoveVertex n (state_of head self.old) }
        ensures removed { state_of result self.new ≡ state_remove_vertex n (state_of head self.old) }
        ensures same_loan { SameLoan self.old self.new }
    {
        let ends = VERTEX_LINKS.unlink(self.vertices, head.vertex_ends(), n);
        put_vertex(self.vertices, n, 0, 0, 0);
        Head {
            vertices: head.vertices - 1,
            ..head.with_vertex_ends(ends)
        }
    }
}
