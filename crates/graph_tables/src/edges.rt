// Edges put in, taken out, set and moved.
// A caller has tables that hold a graph to which the edit applies, or lists that are held: `Can` of the edit.
ghost use Rattle.std.specs.Prelude.{◌≡◌, ◌^◌, ◌<◌};
ghost use Rattle.linked_lists.specs.Links.{CanMove};
ghost use Rattle.graph.specs.Graph.{reading_of, IsWords};
ghost use Rattle.graph_tables.specs.declared.Head.{Head};
ghost use Rattle.graph_tables.specs.Tables.{state_of, SameLoan, edge_list_ends, edge_links, EdgeRowIn};
ghost use Rattle.graph_tables.specs.Tables.{state_set_edge, state_move_edge, state_place_edge, CanPlaceEdge};
ghost use Rattle.graph_tables.specs.Tables.{state_drop_edge, CanDropEdge, state_insert_edge, CanInsertEdge};
ghost use Rattle.graph_tables.specs.Tables.{state_remove_edge, CanRemoveEdge};

use crate::fields::EDGE_LINKS;
use crate::rows::{put_edge, put_fields, put_this};
use crate::{EdgeRecord, Head, Places, Tables};
use graph::Reading;

impl<'t> Tables<'t> {
    /// Sets type and reading of e.
    #[tactic(auto, unfolding(crate::specs::Tables::state_set_edge))]
    #[inline(always)]
    pub fn set_edge(&mut self, e: u32, sort: u32, reading: Reading)
        requires { EdgeRowIn self.old.edges.now e }
        ensures set { (head : Head) → state_of head self.new ≡ state_set_edge e sort reading (state_of head self.old) }
        ensures same_loan { SameLoan self.old self.new }
    {
        put_edge(self.edges, e, 1, sort, reading);
    }

    /// The same, by the two words of the reading.
    #[tactic(auto, unfolding(crate::specs::Tables::state_set_edge))]
    #[inline(always)]
    pub fn set_edge_words(&mut self, e: u32, sort: u32, kind: u32, heard: u32)
        requires row { EdgeRowIn self.old.edges.now e }
        requires words { IsWords kind heard }
        ensures set { (head : Head) → state_of head self.new
            ≡ state_set_edge e sort (reading_of kind heard) (state_of head self.old) }
        ensures same_loan { SameLoan self.old self.new }
    {
        put_fields(self.edges, e, sort, kind, heard);
    }

    /// Puts edge n after p in Eseq.
    #[tactic(auto, unfolding(crate::specs::Tables::state_move_edge))]
    #[inline(always)]
    pub fn move_edge(&mut self, head: Head, n: u32, p: u32) -> Head
        requires { CanMove edge_links n p self.old.edges.now (edge_list_ends head) }
        ensures moved { state_of result self.new ≡ state_move_edge n p (state_of head self.old) }
        ensures same_loan { SameLoan self.old self.new }
    {
        let ends = EDGE_LINKS.relink(self.edges, head.edge_ends(), n, p);
        head.with_edge_ends(ends)
    }

    /// An edge's row and its place in Eseq, without its words in the lists.
    #[tactic(auto, unfolding(crate::specs::Tables::state_place_edge))]
    #[inline(always)]
    pub fn place_edge(&mut self, head: Head, edge: EdgeRecord, p: u32) -> Head
        requires { CanPlaceEdge edge.number p (state_of head self.old) }
        ensures placed { state_of result self.new ≡ state_place_edge edge.number edge.alpha edge.omega edge.sort
            edge.reading p (state_of head self.old) }
        ensures same_loan { SameLoan self.old self.new }
    {
        let ends = EDGE_LINKS.insert_after(self.edges, head.edge_ends(), p, edge.number);
        put_edge(self.edges, edge.number, 1, edge.sort, edge.reading);
        put_this(self.edges, edge.number, edge.alpha, edge.omega);
        Head {
            edges: head.edges + 1,
            ..head.with_edge_ends(ends)
        }
    }

    #[tactic(auto, unfolding(crate::specs::Tables::state_drop_edge))]
    #[inline(always)]
    fn drop_edge(&mut self, head: Head, n: u32) -> Head
        requires { CanDropEdge n (state_of head self.old) }
        ensures dropped { state_of result self.new ≡ state_drop_edge n (state_of head self.old) }
        ensures same_loan { SameLoan self.old self.new }
    {
        let ends = EDGE_LINKS.unlink(self.edges, head.edge_ends(), n);
        put_edge(self.edges, n, 0, 0, Reading::Untested);
        put_this(self.edges, n, 0, 0);
        Head {
            edges: head.edges - 1,
            ..head.with_edge_ends(ends)
        }
    }

    /// Puts an edge into Eseq and its words into the lists.
    #[tactic(auto, unfolding(crate::specs::Tables::state_insert_edge))]
    #[inline(always)]
    pub fn insert_edge(&mut self, head: Head, edge: EdgeRecord, at: Places) -> Head
        requires number { edge.number < 2 ^ 31 }
        requires can { CanInsertEdge edge.number edge.alpha edge.omega edge.sort edge.reading at.order at.out at.into
            (state_of head self.old) }
        ensures inserted { state_of result self.new ≡ state_insert_edge edge.number edge.alpha edge.omega edge.sort
            edge.reading at.order at.out at.into (state_of head self.old) }
        ensures same_loan { SameLoan self.old self.new }
    {
        let head = self.place_edge(head, edge, at.order);
        self.attach(edge.alpha, at.out, 2 * edge.number);
        self.attach(edge.omega, at.into, 2 * edge.number + 1);
        head
    }

    /// Takes edge n, from a to z, out of the lists and out of Eseq.
    #[tactic(auto, unfolding(crate::specs::Tables::state_remove_edge))]
    #[inline(always)]
    pub fn remove_edge(&mut self, head: Head, n: u32, a: u32, z: u32) -> Head
        requires number { n < 2 ^ 31 }
        requires can { CanRemoveEdge n a z (state_of head self.old) }
        ensures removed { state_of result self.new ≡ state_remove_edge n a z (state_of head self.old) }
        ensures same_loan { SameLoan self.old self.new }
    {
        self.detach(z, 2 * n + 1);
        self.detach(a, 2 * n);
        self.drop_edge(head, n)
    }
}
