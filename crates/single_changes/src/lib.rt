// The changes of one edit: codes, row and tables in one go, by one choice of the kind.
#![tactic(auto)]

ghost use Rattle.std.specs.Prelude.{◌≡◌};
ghost use Rattle.graph_tables.specs.Tables.{state_of, SameLoan};
ghost use Rattle.journal.specs.Rooms.{SameRoom};
ghost use Rattle.single_changes.specs.One.{HoldsGraph, One};
ghost use Rattle.tried_edits.specs.Tried.{attempt_of, outcome_of};

use commands::refusal::Refusal;
use graph::SingleChange;
use graph_tables::{Head, Tables};
use journal::room::Room;
use tried_edits::Made;

mod kinds; // kinds 1 and 3 to 8
mod moves; // kinds 9 to 16

/// A change of one edit, made where it is not refused: its row is the next one in the room. A refused one writes
/// nothing, and neither does one that alters nothing, whose cost is 0.
#[inline(always)]
pub fn make(
    tables: &mut Tables<'_>,
    head: Head,
    room: &mut Room<'_>,
    types: u32,
    change: SingleChange,
) -> Result<Made, Refusal>
    requires { HoldsGraph (state_of head tables.old) }
    ensures made { One change types (attempt_of head tables.old room.old)
        (outcome_of head result tables.new room.new.journal.now) }
    ensures same_loan { SameLoan tables.old tables.new }
    ensures same_room { SameRoom room.old room.new }
{
    match change {
        SingleChange::CreateVertex(n, sort, value) => {
            kinds::create_vertex(tables, head, room, types, n, sort, value)
        }
        SingleChange::CreateEdge(n, a, z, sort) => {
            kinds::create_edge(tables, head, room, types, n, a, z, sort)
        }
        SingleChange::DeleteEdge(n) => kinds::delete_edge(tables, head, room, n),
        SingleChange::RetypeVertex(n, sort) => {
            kinds::retype_vertex(tables, head, room, types, n, sort)
        }
        SingleChange::RetypeEdge(n, sort) => {
            kinds::retype_edge(tables, head, room, types, n, sort)
        }
        SingleChange::SetValue(n, value) => kinds::set_value(tables, head, room, n, value),
        SingleChange::SetReading(n, kind, decimetres) => {
            kinds::set_reading(tables, head, room, n, kind, decimetres)
        }
        SingleChange::SetAlpha(e, u) => moves::set_end::<false>(tables, head, room, e, u),
        SingleChange::SetOmega(e, u) => moves::set_end::<true>(tables, head, room, e, u),
        SingleChange::VertexBefore(a, b) => {
            moves::order_vertex::<false>(tables, head, room, a, b)
        }
        SingleChange::VertexAfter(a, b) => moves::order_vertex::<true>(tables, head, room, a, b),
        SingleChange::EdgeBefore(a, b) => moves::order_edge::<false>(tables, head, room, a, b),
        SingleChange::EdgeAfter(a, b) => moves::order_edge::<true>(tables, head, room, a, b),
        SingleChange::WordBefore(a, b) => moves::order_word::<false>(tables, head, room, a, b),
        SingleChange::WordAfter(a, b) => moves::order_word::<true>(tables, head, room, a, b),
    }
}
