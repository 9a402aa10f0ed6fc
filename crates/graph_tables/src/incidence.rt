// Words put into incidence lists, taken out and moved.
// A caller has tables that hold a graph to which the edit applies, or lists that are held: `Can` of the edit.
ghost use Rattle.std.specs.Prelude.{◌≡◌};
ghost use Rattle.graph_tables.specs.declared.Head.{Head};
ghost use Rattle.graph_tables.specs.Tables.{state_of, SameLoan, HalfRowIn, state_detach, CanDetach, state_attach, CanAttach};
ghost use Rattle.graph_tables.specs.Tables.{state_set_this, state_move_word, CanMoveWord};

use crate::fields::{HALF_THIS, INCIDENCE_LINKS, half_row};
use crate::rows::put_ends;
use crate::{Head, Tables};

impl<'t> Tables<'t> {
    /// Takes word w out of v's list.
    #[tactic(auto, unfolding(crate::specs::Tables::state_detach))]
    #[inline(always)]
    pub fn detach(&mut self, v: u32, w: u32)
        requires { (head : Head) × CanDetach v w (state_of head self.old) }
        ensures detached { (head : Head) → state_of head self.new ≡ state_detach v w (state_of head self.old) }
        ensures same_loan { SameLoan self.old self.new }
    {
        let ends = self.ends_of(v);
        let ends = INCIDENCE_LINKS.unlink(self.edges, ends, w);
        put_ends(self.vertices, v, ends);
    }

    /// Puts word w into v's list after p.
    #[tactic(auto, unfolding(crate::specs::Tables::state_attach))]
    #[inline(always)]
    pub fn attach(&mut self, v: u32, p: u32, w: u32)
        requires { (head : Head) × CanAttach v p w (state_of head self.old) }
        ensures attached { (head : Head) → state_of head self.new ≡ state_attach v p w (state_of head self.old) }
        ensures same_loan { SameLoan self.old self.new }
    {
        let ends = self.ends_of(v);
        let ends = INCIDENCE_LINKS.insert_after(self.edges, ends, p, w);
        put_ends(self.vertices, v, ends);
    }

    #[tactic(auto, unfolding(crate::specs::Tables::state_set_this))]
    #[inline(always)]
    fn set_this(&mut self, w: u32, u: u32)
        requires { HalfRowIn self.old.edges.now w }
        ensures set { (head : Head) → state_of head self.new ≡ state_set_this w u (state_of head self.old) }
        ensures same_loan { SameLoan self.old self.new }
    {
        self.edges[half_row(w) + HALF_THIS] = u;
    }

    /// Takes word w out of v's list and puts it into u's after p.
    #[tactic(auto, unfolding(crate::specs::Tables::state_move_word))]
    #[inline(always)]
    pub fn move_word(&mut self, w: u32, v: u32, u: u32, p: u32)
        requires { (head : Head) × CanMoveWord w v u p (state_of head self.old) }
        ensures moved { (head : Head) → state_of head self.new ≡ state_move_word w v u p (state_of head self.old) }
        ensures same_loan { SameLoan self.old self.new }
    {
        self.detach(v, w);
        self.attach(u, p, w);
        self.set_this(w, u);
    }
}
