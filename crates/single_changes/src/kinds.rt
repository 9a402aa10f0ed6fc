// Kinds 1 and 3 to 8, one function each: its codes, the words that its edit names, read off the tables, and the edit
// tried. A caller has tables that hold a graph; the words of the call may be any. What sets a vertex and what sets an
// edge stay apart: they differ in the words of a row as well as in the table.
ghost use Rattle.std.specs.Prelude.{◌≡◌};
ghost use Rattle.graph_tables.specs.Tables.{state_of, SameLoan, VertexRowIn, EdgeRowIn, vtype, vvalue, etype, ekind, edecimetres};
ghost use Rattle.journal.specs.Rooms.{SameRoom};
ghost use Rattle.single_changes.specs.One.{HoldsGraph, One, Untyped};
ghost use Rattle.tried_edits.specs.Tried.{attempt_of, outcome_of};

use commands::refusal::Refusal;
use graph::SingleChange;
use graph_tables::fields::{VERTEX_LAST, VERTEX_TYPE, VERTEX_VALUE};
use graph_tables::{Head, Places, Tables};
use journal::room::Room;
use tried_edits::removal::removed_edge;
use tried_edits::{EdgeWords, Made, VertexWords};

// Type and value of vertex n.
#[inline(always)]
fn vertex_words(tables: &Tables<'_>, n: u32) -> VertexWords
    requires { VertexRowIn tables.now.vertices.now n }
    ensures { result ≡ record { sort = vtype tables.now.vertices.now n; value = vvalue tables.now.vertices.now n } }
{
    VertexWords {
        sort: tables.vertex_field(n, VERTEX_TYPE),
        value: tables.vertex_field(n, VERTEX_VALUE),
    }
}

// Type and reading of edge n.
#[inline(always)]
fn edge_words(tables: &Tables<'_>, n: u32) -> EdgeWords
    requires { EdgeRowIn tables.now.edges.now n }
    ensures { result ≡ record {
      sort = etype tables.now.edges.now n;
      kind = ekind tables.now.edges.now n;
      decimetres = edecimetres tables.now.edges.now n;
    } }
{
    let fields = tables.edge_fields(n);
    EdgeWords {
        sort: fields.sort,
        kind: fields.kind,
        decimetres: fields.decimetres,
    }
}

/// Kind 1: a new vertex, last in its order.
#[inline(always)]
pub fn create_vertex(
    tables: &mut Tables<'_>,
    head: Head,
    room: &mut Room<'_>,
    types: u32,
    n: u32,
    sort: u32,
    value: u32,
) -> Result<Made, Refusal>
    requires { HoldsGraph (state_of head tables.old) }
    ensures made { One (SingleChange.CreateVertex n sort value) types (attempt_of head tables.old room.old)
        (outcome_of head result tables.new room.new.journal.now) }
    ensures same_loan { SameLoan tables.old tables.new }
    ensures same_room { SameRoom room.old room.new }
{
    change_codes::create_vertex(tables.view().vertices, types, n, sort)?;
    tried_edits::insert_vertex(
        tables,
        head,
        room,
        n,
        VertexWords { sort, value },
        head.vlast,
    )
}

/// Kind 3: a new edge, untested, last in its order and in the lists of its ends.
#[inline(always)]
pub fn create_edge(
    tables: &mut Tables<'_>,
    head: Head,
    room: &mut Room<'_>,
    types: u32,
    n: u32,
    a: u32,
    z: u32,
    sort: u32,
) -> Result<Made, Refusal>
    requires { HoldsGraph (state_of head tables.old) }
    ensures made { One (SingleChange.CreateEdge n a z sort) types (attempt_of head tables.old room.old)
        (outcome_of head result tables.new room.new.journal.now) }
    ensures same_loan { SameLoan tables.old tables.new }
    ensures same_room { SameRoom room.old room.new }
{
    change_codes::create_edge(&tables.view(), types, n, a, z, sort)?;
    let out = tables.vertex_field(a, VERTEX_LAST);
    let last = tables.vertex_field(z, VERTEX_LAST);
    let into = if a == z { 2 * n } else { last };
    let at = Places {
        order: head.elast,
        out,
        into,
    };
    tried_edits::insert_edge(tables, head, room, n, a, z, sort, at)
}

/// Kind 4: an edge goes.
#[inline(always)]
pub fn delete_edge(
    tables: &mut Tables<'_>,
    head: Head,
    room: &mut Room<'_>,
    n: u32,
) -> Result<Made, Refusal>
    requires { HoldsGraph (state_of head tables.old) }
    ensures made { Untyped (SingleChange.DeleteEdge n) (attempt_of head tables.old room.old)
        (outcome_of head result tables.new room.new.journal.now) }
    ensures same_loan { SameLoan tables.old tables.new }
    ensures same_room { SameRoom room.old room.new }
{
    change_codes::check_edge(tables.view().edges, n)?;
    tried_edits::remove_edge(tables, head, room, n, removed_edge(tables.view().edges, n))
}

/// Kind 5: another type of a vertex.
#[inline(always)]
pub fn retype_vertex(
    tables: &mut Tables<'_>,
    head: Head,
    room: &mut Room<'_>,
    types: u32,
    n: u32,
    sort: u32,
) -> Result<Made, Refusal>
    requires { HoldsGraph (state_of head tables.old) }
    ensures made { One (SingleChange.RetypeVertex n sort) types (attempt_of head tables.old room.old)
        (outcome_of head result tables.new room.new.journal.now) }
    ensures same_loan { SameLoan tables.old tables.new }
    ensures same_room { SameRoom room.old room.new }
{
    change_codes::retype_vertex(tables.view().vertices, types, n, sort)?;
    let old = vertex_words(tables, n);
    tried_edits::set_vertex(tables, head, room, n, old, VertexWords { sort, ..old })
}

/// Kind 6: another type of an edge.
#[inline(always)]
pub fn retype_edge(
    tables: &mut Tables<'_>,
    head: Head,
    room: &mut Room<'_>,
    types: u32,
    n: u32,
    sort: u32,
) -> Result<Made, Refusal>
    requires { HoldsGraph (state_of head tables.old) }
    ensures made { One (SingleChange.RetypeEdge n sort) types (attempt_of head tables.old room.old)
        (outcome_of head result tables.new room.new.journal.now) }
    ensures same_loan { SameLoan tables.old tables.new }
    ensures same_room { SameRoom room.old room.new }
{
    change_codes::retype_edge(tables.view().edges, types, n, sort)?;
    let old = edge_words(tables, n);
    tried_edits::set_edge(tables, head, room, n, old, EdgeWords { sort, ..old })
}

/// Kind 7: another value of a vertex.
#[inline(always)]
pub fn set_value(
    tables: &mut Tables<'_>,
    head: Head,
    room: &mut Room<'_>,
    n: u32,
    value: u32,
) -> Result<Made, Refusal>
    requires { HoldsGraph (state_of head tables.old) }
    ensures made { Untyped (SingleChange.SetValue n value) (attempt_of head tables.old room.old)
        (outcome_of head result tables.new room.new.journal.now) }
    ensures same_loan { SameLoan tables.old tables.new }
    ensures same_room { SameRoom room.old room.new }
{
    change_codes::check_vertex(tables.view().vertices, n)?;
    let old = vertex_words(tables, n);
    tried_edits::set_vertex(tables, head, room, n, old, VertexWords { value, ..old })
}

/// Kind 8: another reading of an edge.
#[inline(always)]
pub fn set_reading(
    tables: &mut Tables<'_>,
    head: Head,
    room: &mut Room<'_>,
    n: u32,
    kind: u32,
    decimetres: u32,
) -> Result<Made, Refusal>
    requires { HoldsGraph (state_of head tables.old) }
    ensures made { Untyped (SingleChange.SetReading n kind decimetres) (attempt_of head tables.old room.old)
        (outcome_of head result tables.new room.new.journal.now) }
    ensures same_loan { SameLoan tables.old tables.new }
    ensures same_room { SameRoom room.old room.new }
{
    change_codes::set_reading(tables.view().edges, n, kind, decimetres)?;
    let old = edge_words(tables, n);
    let new = EdgeWords {
        kind,
        decimetres,
        ..old
    };
    tried_edits::set_edge(tables, head, room, n, old, new)
}
