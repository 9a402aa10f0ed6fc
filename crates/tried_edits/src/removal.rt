// What the row of an edge's removal says of the edge, read off its row in the table.
ghost use Rattle.std.specs.Prelude.{◌≡◌, ◌^◌, ◌<◌, ◌∷◌, []};
ghost use Rattle.graph_tables.specs.Tables.{EdgeRowIn};
ghost use Rattle.tried_edits.specs.Plans.{removed_edge};

use graph_tables::fields::{EDGE_PREV, HALF_PREV, HALF_THIS};
use graph_tables::rows::{edge_field, edge_fields, half_field};
use journal::kinds;

/// Ends, type, reading, and after which edge and which words it stands, the out word once the in word is gone.
#[derive(Clone, Copy, Debug, PartialEq, Eq)]
pub struct RemovedEdge {
    pub alpha: u32,
    pub omega: u32,
    pub sort: u32,
    pub kind: u32,
    pub decimetres: u32,
    pub order: u32,
    pub out: u32,
    pub into: u32,
}

impl RemovedEdge {
    /// The words of the row of the removal of edge n.
    #[inline(always)]
    pub fn row_words(self, n: u32) -> [u32; 10]
        ensures { result ≡ 4 ∷ n ∷ self.alpha ∷ self.omega ∷ self.sort ∷ self.kind ∷ self.decimetres ∷ self.order
            ∷ self.out ∷ self.into ∷ [] }
    {
        [
            kinds::REMOVE_EDGE,
            n,
            self.alpha,
            self.omega,
            self.sort,
            self.kind,
            self.decimetres,
            self.order,
            self.out,
            self.into,
        ]
    }
}

/// These words of edge n, read off its row. Its ends are read by its two words, whose places are read too: tried with
/// ends from the start of the row, questions took 1 in 100 more instructions (DECISIONS 179).
#[inline(always)]
#[tactic(auto, unfolding(lists::specs::Choice::if_equal))]
pub fn removed_edge(edges: &[u32], n: u32) -> RemovedEdge
    requires { (n < 2 ^ 31) × EdgeRowIn edges.now n }
    ensures { result ≡ removed_edge edges.now n }
{
    let fields = edge_fields(edges, n);
    let before = half_field(edges, 2 * n, HALF_PREV);
    let into = half_field(edges, 2 * n + 1, HALF_PREV);
    let out = if before == 2 * n + 1 { into } else { before };
    RemovedEdge {
        alpha: half_field(edges, 2 * n, HALF_THIS),
        omega: half_field(edges, 2 * n + 1, HALF_THIS),
        sort: fields.sort,
        kind: fields.kind,
        decimetres: fields.decimetres,
        order: edge_field(edges, n, EDGE_PREV),
        out,
        into,
    }
}
