// An edit tried: nothing is written where its old and its new agree, it is refused where there is no room for its row,
// else it is written down as one row, a step of cost 1, and carried out.
// Each edit has a function of its own, which hands the edit on as words. One function for an edit by value is no plainer:
// kinds 4, 6 and 8 would build a reading from its two words, and take it apart again for the row and for the table. Nor
// is one that takes the edit as a closure: what stands here of an edit would be said of any closure's calls.
#![tactic(auto, using(crate::proofs::Tries::tries))]

ghost use Rattle.std.specs.Prelude.{◌≡◌, ◌≢◌, ◌+◌, ◌*◌, ◌^◌, ◌<◌, set, OnOk, OnErr, Err};
ghost use Rattle.linked_lists.specs.Links.{CanMove};
ghost use Rattle.graph.specs.Graph.{reading_of, IsWords};
ghost use Rattle.graph_tables.specs.Tables.{state_of, SameLoan, vertex_links, edge_links, vertex_list_ends, edge_list_ends};
ghost use Rattle.graph_tables.specs.Tables.{VertexRowIn, EdgeRowIn};
ghost use Rattle.graph_tables.specs.Tables.{CanInsertVertex, CanInsertEdge, CanRemoveEdge, CanMoveWord};
ghost use Rattle.journal.specs.Rows.{store_from};
ghost use Rattle.journal.specs.Rooms.{SameRoom};
ghost use Rattle.commands.specs.declared.refusal.Refusal.TheVariants.{NoRoom};
ghost use Rattle.tried_edits.specs.Plans.{removal_of};
ghost use Rattle.tried_edits.specs.Tried.{attempt_of, outcome_of, Tries};

use crate::removal::RemovedEdge;
use commands::refusal::Refusal;
use graph::{Edit, Reading};
use graph_tables::{EdgeRecord, Head, Places, Tables};
use journal::kinds;
use journal::room::Room;

pub mod removal; // what the row of an edge says of its removal

/// What a change that is not refused came to: the head after it and its cost, 0 where it alters nothing and so wrote
/// nothing.
#[derive(Clone, Copy, Debug, PartialEq, Eq)]
pub struct Made {
    pub head: Head,
    pub cost: u32,
}

/// Type and value of a vertex.
#[derive(Clone, Copy, Debug, PartialEq, Eq)]
pub struct VertexWords {
    pub sort: u32,
    pub value: u32,
}

/// Type of an edge, kind and decimetres of its reading.
#[derive(Clone, Copy, Debug, PartialEq, Eq)]
pub struct EdgeWords {
    pub sort: u32,
    pub kind: u32,
    pub decimetres: u32,
}

/// Where a word stands: in whose list, and after which word.
#[derive(Clone, Copy, Debug, PartialEq, Eq)]
pub struct WordPlace {
    pub vertex: u32,
    pub after: u32,
}

// Writes the words of an edit down as a step of one row. Where no row is free, nothing is written.
#[inline(always)]
fn put_step(room: &mut Room<'_>, words: [u32; 10]) -> Result<(), Refusal>
    ensures free { OnOk result (room.old.free ≢ 0) }
    ensures row { OnOk result (room.new.journal.now
        ≡ set (store_from (12 * room.old.row) words room.old.journal.now) (12 * room.old.row + 10) 1) }
    ensures full { OnErr result (room.old.free ≡ 0) }
    ensures refused { OnErr result (result ≡ Err NoRoom) }
    ensures kept { OnErr result (room.new.journal.now ≡ room.old.journal.now) }
    ensures same_room { SameRoom room.old room.new }
{
    if room.free == 0 {
        return Err(Refusal::NoRoom);
    }
    room.put(1, words);
    Ok(())
}

/// Vertex n, put in after p.
#[inline(always)]
pub fn insert_vertex(
    tables: &mut Tables<'_>,
    head: Head,
    room: &mut Room<'_>,
    n: u32,
    words: VertexWords,
    p: u32,
) -> Result<Made, Refusal>
    requires { CanInsertVertex n p (state_of head tables.old) }
    ensures tries { Tries (Edit.InsertVertex n words.sort words.value p) (attempt_of head tables.old room.old)
        (outcome_of head result tables.new room.new.journal.now) }
    ensures same_loan { SameLoan tables.old tables.new }
    ensures same_room { SameRoom room.old room.new }
{
    put_step(
        room,
        [
            kinds::INSERT_VERTEX,
            n,
            words.sort,
            words.value,
            p,
            0,
            0,
            0,
            0,
            0,
        ],
    )?;
    let head = tables.insert_vertex(head, n, words.sort, words.value, p);
    Ok(Made { head, cost: 1 })
}

/// Edge n, put in untested.
#[inline(always)]
pub fn insert_edge(
    tables: &mut Tables<'_>,
    head: Head,
    room: &mut Room<'_>,
    n: u32,
    a: u32,
    z: u32,
    sort: u32,
    at: Places,
) -> Result<Made, Refusal>
    requires number { n < 2 ^ 31 }
    requires can { CanInsertEdge n a z sort Reading.Untested at.order at.out at.into (state_of head tables.old) }
    ensures tries { Tries (Edit.InsertEdge n a z sort Reading.Untested at.order at.out at.into)
        (attempt_of head tables.old room.old) (outcome_of head result tables.new room.new.journal.now) }
    ensures same_loan { SameLoan tables.old tables.new }
    ensures same_room { SameRoom room.old room.new }
{
    put_step(
        room,
        [
            kinds::INSERT_EDGE,
            n,
            a,
            z,
            sort,
            0,
            0,
            at.order,
            at.out,
            at.into,
        ],
    )?;
    let edge = EdgeRecord {
        number: n,
        alpha: a,
        omega: z,
        sort,
        reading: Reading::Untested,
    };
    let head = tables.insert_edge(head, edge, at);
    Ok(Made { head, cost: 1 })
}

/// Edge n, taken out by the words of its row.
#[inline(always)]
pub fn remove_edge(
    tables: &mut Tables<'_>,
    head: Head,
    room: &mut Room<'_>,
    n: u32,
    removed: RemovedEdge,
) -> Result<Made, Refusal>
    requires number { n < 2 ^ 31 }
    requires can { CanRemoveEdge n removed.alpha removed.omega (state_of head tables.old) }
    requires words { IsWords removed.kind removed.decimetres }
    ensures tries { Tries (removal_of n removed) (attempt_of head tables.old room.old)
        (outcome_of head result tables.new room.new.journal.now) }
    ensures same_loan { SameLoan tables.old tables.new }
    ensures same_room { SameRoom room.old room.new }
{
    put_step(room, removed.row_words(n))?;
    let head = tables.remove_edge(head, n, removed.alpha, removed.omega);
    Ok(Made { head, cost: 1 })
}

/// Type and value of n, from old to new.
#[inline(always)]
pub fn set_vertex(
    tables: &mut Tables<'_>,
    head: Head,
    room: &mut Room<'_>,
    n: u32,
    old: VertexWords,
    new: VertexWords,
) -> Result<Made, Refusal>
    requires { VertexRowIn tables.old.vertices.now n }
    ensures tries { Tries (Edit.SetVertex n old.sort old.value new.sort new.value)
        (attempt_of head tables.old room.old) (outcome_of head result tables.new room.new.journal.now) }
    ensures same_loan { SameLoan tables.old tables.new }
    ensures same_room { SameRoom room.old room.new }
{
    if old == new {
        return Ok(Made { head, cost: 0 });
    }
    put_step(
        room,
        [
            kinds::SET_VERTEX,
            n,
            old.sort,
            old.value,
            new.sort,
            new.value,
            0,
            0,
            0,
            0,
        ],
    )?;
    tables.set_vertex(n, new.sort, new.value);
    Ok(Made { head, cost: 1 })
}

/// Type and reading of n, from old to new.
#[inline(always)]
pub fn set_edge(
    tables: &mut Tables<'_>,
    head: Head,
    room: &mut Room<'_>,
    n: u32,
    old: EdgeWords,
    new: EdgeWords,
) -> Result<Made, Refusal>
    requires row { EdgeRowIn tables.old.edges.now n }
    requires old { IsWords old.kind old.decimetres }
    requires new { IsWords new.kind new.decimetres }
    ensures tries { Tries (Edit.SetEdge n old.sort (reading_of old.kind old.decimetres) new.sort
        (reading_of new.kind new.decimetres)) (attempt_of head tables.old room.old)
        (outcome_of head result tables.new room.new.journal.now) }
    ensures same_loan { SameLoan tables.old tables.new }
    ensures same_room { SameRoom room.old room.new }
{
    if old == new {
        return Ok(Made { head, cost: 0 });
    }
    put_step(
        room,
        [
            kinds::SET_EDGE,
            n,
            old.sort,
            old.kind,
            old.decimetres,
            new.sort,
            new.kind,
            new.decimetres,
            0,
            0,
        ],
    )?;
    tables.set_edge_words(n, new.sort, new.kind, new.decimetres);
    Ok(Made { head, cost: 1 })
}

/// Vertex n, from after p to after q.
#[inline(always)]
pub fn move_vertex(
    tables: &mut Tables<'_>,
    head: Head,
    room: &mut Room<'_>,
    n: u32,
    p: u32,
    q: u32,
) -> Result<Made, Refusal>
    requires { CanMove vertex_links n q tables.old.vertices.now (vertex_list_ends head) }
    ensures tries { Tries (Edit.MoveVertex n p q) (attempt_of head tables.old room.old)
        (outcome_of head result tables.new room.new.journal.now) }
    ensures same_loan { SameLoan tables.old tables.new }
    ensures same_room { SameRoom room.old room.new }
{
    if p == q {
        return Ok(Made { head, cost: 0 });
    }
    put_step(room, [kinds::MOVE_VERTEX, n, p, q, 0, 0, 0, 0, 0, 0])?;
    let head = tables.move_vertex(head, n, q);
    Ok(Made { head, cost: 1 })
}

/// Edge n, from after p to after q. It is not one function with move_vertex: that would be told by a flag which table,
/// which list and which kind of row it is, and its clause would be two.
#[inline(always)]
pub fn move_edge(
    tables: &mut Tables<'_>,
    head: Head,
    room: &mut Room<'_>,
    n: u32,
    p: u32,
    q: u32,
) -> Result<Made, Refusal>
    requires { CanMove edge_links n q tables.old.edges.now (edge_list_ends head) }
    ensures tries { Tries (Edit.MoveEdge n p q) (attempt_of head tables.old room.old)
        (outcome_of head result tables.new room.new.journal.now) }
    ensures same_loan { SameLoan tables.old tables.new }
    ensures same_room { SameRoom room.old room.new }
{
    if p == q {
        return Ok(Made { head, cost: 0 });
    }
    put_step(room, [kinds::MOVE_EDGE, n, p, q, 0, 0, 0, 0, 0, 0])?;
    let head = tables.move_edge(head, n, q);
    Ok(Made { head, cost: 1 })
}

/// A word, from its place in a list to a place in the same or another list.
#[inline(always)]
pub fn move_word(
    tables: &mut Tables<'_>,
    head: Head,
    room: &mut Room<'_>,
    w: u32,
    from: WordPlace,
    to: WordPlace,
) -> Result<Made, Refusal>
    requires { CanMoveWord w from.vertex to.vertex to.after (state_of head tables.old) }
    ensures tries { Tries (Edit.MoveWord w from.vertex from.after to.vertex to.after)
        (attempt_of head tables.old room.old) (outcome_of head result tables.new room.new.journal.now) }
    ensures same_loan { SameLoan tables.old tables.new }
    ensures same_room { SameRoom room.old room.new }
{
    if from == to {
        return Ok(Made { head, cost: 0 });
    }
    put_step(
        room,
        [
            kinds::MOVE_WORD,
            w,
            from.vertex,
            from.after,
            to.vertex,
            to.after,
            0,
            0,
            0,
            0,
        ],
    )?;
    tables.move_word(w, from.vertex, to.vertex, to.after);
    Ok(Made { head, cost: 1 })
}
