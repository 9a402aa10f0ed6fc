// The nine edits.
// A caller has tables that hold a graph to which the edit applies, or lists that are held: `Can` of the edit.
ghost use Rattle.std.specs.Prelude.{◌≡◌};
ghost use Rattle.graph_tables.specs.Tables.{state_of, SameLoan};
ghost use Rattle.graph_tables.specs.Edits.{state_apply, Can};

use crate::{EdgeRecord, Head, Places, Tables};
use graph::Edit;

impl<'t> Tables<'t> {
    /// Carries an edit out. It is inlined into each of the two loops that replay.
    #[inline(always)]
    pub fn apply(&mut self, head: Head, edit: Edit) -> Head
        requires { Can edit (state_of head self.old) }
        ensures applied { state_of result self.new ≡ state_apply edit (state_of head self.old) }
        ensures same_loan { SameLoan self.old self.new }
    {
        match edit {
            Edit::InsertVertex(n, t, x, p) => self.insert_vertex(head, n, t, x, p),
            Edit::RemoveVertex(n, _, _, _) => self.remove_vertex(head, n),
            Edit::InsertEdge(number, alpha, omega, sort, reading, order, out, into) => {
                let edge = EdgeRecord {
                    number,
                    alpha,
                    omega,
                    sort,
                    reading,
                };
                self.insert_edge(head, edge, Places { order, out, into })
            }
            Edit::RemoveEdge(n, a, z, _, _, _, _, _) => self.remove_edge(head, n, a, z),
            Edit::SetVertex(n, _, _, t, x) => {
                self.set_vertex(n, t, x);
                head
            }
            Edit::SetEdge(n, _, _, t, r) => {
                self.set_edge(n, t, r);
                head
            }
            Edit::MoveVertex(n, _, p) => self.move_vertex(head, n, p),
            Edit::MoveEdge(n, _, p) => self.move_edge(head, n, p),
            Edit::MoveWord(w, v, _, u, p) => {
                self.move_word(w, v, u, p);
                head
            }
        }
    }
}
