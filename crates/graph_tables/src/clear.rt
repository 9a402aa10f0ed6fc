// Tables with no vertices and no edges.
ghost use Rattle.std.specs.Prelude.{◌≡◌};
ghost use Rattle.graph_tables.specs.Tables.{cleared, state_of, SameLoan};

use crate::{Head, Tables};

impl<'t> Tables<'t> {
    /// Makes the empty graph, whatever words the tables come with.
    #[tactic(auto, unfolding(crate::specs::Tables::cleared))]
    #[inline(always)]
    pub fn clear(&mut self) -> Head
        ensures cleared { state_of result self.new ≡ cleared self.old.vertices.now self.old.edges.now }
        ensures same_loan { SameLoan self.old self.new }
    {
        self.vertices.fill(0);
        self.edges.fill(0);
        Head::default()
    }
}
