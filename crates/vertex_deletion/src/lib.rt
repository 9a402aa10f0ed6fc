// Kind 2, the deletion of a vertex: codes, rows and tables.
// Journal and row are two parameters here: the rows of a step go on from one another, and a room is for one row.
#![tactic(auto)]

ghost use Rattle.std.specs.Prelude.{◌≡◌, ◌+◌, ◌*◌, ◌≤◌, length};
ghost use Rattle.graph.specs.Graph.{Graph, IsWords};
ghost use Rattle.graph.specs.WellFormed.{Bounds};
ghost use Rattle.graph.specs.Changes.{cost, Allowed};
ghost use Rattle.history.specs.Machine.{Timeline, present_in};
ghost use Rattle.graph_tables.specs.declared.Head.{Head};
ghost use Rattle.graph_tables.specs.Tables.{state_of, SameLoan, VertexRowIn, EdgeRowIn, ekind, edecimetres};
ghost use Rattle.graph_tables.specs.Edits.{Can};
ghost use Rattle.graph_tables.specs.Holds.{Holds};
ghost use Rattle.graph_tables.specs.Capacities.{Sized};
ghost use Rattle.journal.specs.Rows.{costing};
ghost use Rattle.journal.specs.Written.{Written};
ghost use Rattle.tried_edits.specs.Plans.{plan_remove_vertex, plan_remove_edge};
ghost use Rattle.timeline.specs.Steps.{Journal};
ghost use Rattle.vertex_deletion.specs.Making.{Deletable, next_edit, step_start, stage, Making};
ghost use Rattle.vertex_deletion.specs.Deleting.{Deletes};
ghost use Rattle.tried_edits.specs.Tried.{outcome_of};

use commands::refusal::Refusal;
use graph::Change;
use graph_tables::fields::{VERTEX_FIRST, VERTEX_PREV, VERTEX_TYPE, VERTEX_VALUE};
use graph_tables::{Head, Lookup, Tables};
use journal::{kinds, put_row};
use timeline::Current;
use tried_edits::Made;
use tried_edits::removal::removed_edge;

// What the deletion of vertex a, which is there, costs: 1, and one more for each distinct edge at it.
fn cost_of(tables: &Tables<'_>, a: u32) -> u32
    requires { (head : Head) × Deletable (state_of head tables.now) a }
    ensures { (head : Head) → (b : Bounds) → (g : Graph) → Holds (state_of head tables.now) g
        → Allowed b g (Change.DeleteVertex a) → result ≡ cost (Change.DeleteVertex a) g }
{
    walks::counting::count_edges(&tables.view(), a) + 1
}

// Takes edge n out, as one row of a step of this cost.
#[inline(always)]
fn remove_edge(
    tables: &mut Tables<'_>,
    head: Head,
    journal: &mut [u32],
    row: u32,
    cost: u32,
    n: u32,
) -> Head
    requires room { 12 * row + 12 ≤ length journal.old }
    requires row { EdgeRowIn tables.old.edges.now n }
    requires can { Can (plan_remove_edge tables.old.edges.now n) (state_of head tables.old) }
    requires words { IsWords (ekind tables.old.edges.now n) (edecimetres tables.old.edges.now n) }
    ensures made { Written (plan_remove_edge tables.old.edges.now n) (costing cost) row (state_of head tables.old)
        journal.old (state_of result tables.new) journal.new }
    ensures same_loan { SameLoan tables.old tables.new }
{
    let removed = removed_edge(tables.view().edges, n);
    put_row(journal, row, cost, removed.row_words(n));
    tables.remove_edge(head, n, removed.alpha, removed.omega)
}

// Takes vertex n out, whose list is empty, as one row of a step of this cost.
#[inline(always)]
fn remove_vertex(
    tables: &mut Tables<'_>,
    head: Head,
    journal: &mut [u32],
    row: u32,
    cost: u32,
    n: u32,
) -> Head
    requires room { 12 * row + 12 ≤ length journal.old }
    requires row { VertexRowIn tables.old.vertices.now n }
    requires can { Can (plan_remove_vertex tables.old.vertices.now n) (state_of head tables.old) }
    ensures made { Written (plan_remove_vertex tables.old.vertices.now n) (costing cost) row
        (state_of head tables.old) journal.old (state_of result tables.new) journal.new }
    ensures same_loan { SameLoan tables.old tables.new }
{
    let sort = tables.vertex_field(n, VERTEX_TYPE);
    let value = tables.vertex_field(n, VERTEX_VALUE);
    let p = tables.vertex_field(n, VERTEX_PREV);
    let words = [kinds::REMOVE_VERTEX, n, sort, value, p, 0, 0, 0, 0, 0];
    put_row(journal, row, cost, words);
    tables.remove_vertex(head, n)
}

// The next row of the deletion of vertex a: the first edge at it goes, or a itself where none is left.
#[inline(always)]
fn next_row(
    tables: &mut Tables<'_>,
    head: Head,
    journal: &mut [u32],
    row: u32,
    cost: u32,
    a: u32,
) -> Head
    requires room { 12 * row + 12 ≤ length journal.old }
    requires holds { Deletable (state_of head tables.old) a }
    ensures made { Written (next_edit (state_of head tables.old) a) (costing cost) row
        (state_of head tables.old) journal.old (state_of result tables.new) journal.new }
    ensures same_loan { SameLoan tables.old tables.new }
{
    let word = tables.vertex_field(a, VERTEX_FIRST);
    if word == 0 {
        remove_vertex(tables, head, journal, row, cost, a)
    } else {
        remove_edge(tables, head, journal, row, cost, word / 2)
    }
}

// The rows of the deletion of vertex a, one after another.
#[inline(always)]
fn make_rows(
    tables: &mut Tables<'_>,
    current: Current,
    journal: &mut [u32],
    a: u32,
    rows: u32,
) -> Head
    requires { (b : Bounds) × (l : Timeline) × Allowed b (present_in l) (Change.DeleteVertex a)
        × (rows ≡ cost (Change.DeleteVertex a) (present_in l))
        × (12 * (current.position.used + rows) ≤ length journal.old)
        × Journal b current.position (state_of current.head tables.old) journal.old l }
    ensures made { (b : Bounds) → (l : Timeline) → Allowed b (present_in l) (Change.DeleteVertex a)
        → Journal b current.position (state_of current.head tables.old) journal.old l
        → Making (Change.DeleteVertex a)
        (step_start b current.position (state_of current.head tables.old) journal.old l) rows
        (stage (state_of result tables.new) journal.new (current.position.used + rows)) }
    ensures same_loan { SameLoan tables.old tables.new }
{
    let mut head = current.head;
    let used = current.position.used;
    for row in used..used + rows {
        head = next_row(tables, head, journal, row, rows, a);
    }
    head
}

/// Kind 2 as one step: a row for each edge at the vertex, then one for the vertex. Refused where it is not there, then
/// where it costs more than is free, and then nothing is written. Else the words of tables and journal are left open,
/// but for the timeline that they stand for.
/// The call's word may be any; that tables and journal stand for a timeline, the run sees to.
#[inline(always)]
pub fn delete(
    tables: &mut Tables<'_>,
    current: Current,
    journal: &mut [u32],
    free: u32,
    vertex: u32,
) -> Result<Made, Refusal>
    requires { (b : Bounds) × (l : Timeline)
        × Journal b current.position (state_of current.head tables.old) journal.old l
        × (12 * (current.position.used + free) ≤ length journal.old) }
    ensures made { Deletes vertex free current.position (state_of current.head tables.old) journal.old
        (outcome_of current.head result tables.new journal.new) }
    ensures same_loan { SameLoan tables.old tables.new }
{
    let Lookup::Found(_) = tables.find_vertex(vertex) else {
        return Err(Refusal::NoVertex);
    };
    let cost = cost_of(tables, vertex);
    if free < cost {
        return Err(Refusal::NoRoom);
    }
    let head = make_rows(tables, current, journal, vertex, cost);
    Ok(Made { head, cost })
}
