// Kinds 9 to 16: a word that goes to another vertex, and what moves in its order, as in kinds.rt. Each pair of kinds that
// differ in a side is one function. Vertices, edges and words stay apart, as their tables, rows and codes do.
ghost use Rattle.std.specs.Prelude.{◌≡◌};
ghost use Rattle.lists.specs.Choice.{◌⇒◌else◌};
ghost use Rattle.graph_tables.specs.Tables.{state_of, SameLoan, HalfRowIn, wprev, wthis};
ghost use Rattle.journal.specs.Rooms.{SameRoom};
ghost use Rattle.single_changes.specs.One.{HoldsGraph, Untyped, setting_end, ordering_vertex, ordering_edge, ordering_word};
ghost use Rattle.tried_edits.specs.Plans.{unless};
ghost use Rattle.tried_edits.specs.Tried.{attempt_of, outcome_of};

use commands::refusal::Refusal;
use graph_tables::fields::{EDGE_PREV, HALF_PREV, HALF_THIS, VERTEX_LAST, VERTEX_PREV};
use graph_tables::{Head, Tables};
use journal::room::Room;
use tried_edits::{Made, WordPlace};

// After x; where x is a itself, which leaves its place first, after what stood before a.
#[inline(always)]
#[tactic(auto, unfolding(lists::specs::Choice::if_equal))]
fn unless(a: u32, before_a: u32, x: u32) -> u32
    ensures { result ≡ unless a before_a x }
{
    if x == a { before_a } else { x }
}

// After what a goes to stand after b, or before it.
#[inline(always)]
fn place<const AFTER: bool>(a: u32, before_a: u32, b: u32, before_b: u32) -> u32
    ensures { result ≡ (AFTER ⇒ b else unless a before_a before_b) }
{
    if AFTER {
        b
    } else {
        unless(a, before_a, before_b)
    }
}

// Where word w stands.
#[inline(always)]
fn word_place(tables: &Tables<'_>, w: u32) -> WordPlace
    requires { HalfRowIn tables.now.edges.now w }
    ensures { result ≡ record { vertex = wthis tables.now.edges.now w; after = wprev tables.now.edges.now w } }
{
    WordPlace {
        vertex: tables.half_field(w, HALF_THIS),
        after: tables.half_field(w, HALF_PREV),
    }
}

/// Kind 9: the out word of edge e goes last in the list of u; kind 10: the in word.
#[inline(always)]
pub fn set_end<const IN: bool>(
    tables: &mut Tables<'_>,
    head: Head,
    room: &mut Room<'_>,
    e: u32,
    u: u32,
) -> Result<Made, Refusal>
    requires { HoldsGraph (state_of head tables.old) }
    ensures made { Untyped (setting_end IN e u) (attempt_of head tables.old room.old)
        (outcome_of head result tables.new room.new.journal.now) }
    ensures same_loan { SameLoan tables.old tables.new }
    ensures same_room { SameRoom room.old room.new }
{
    change_codes::set_end(&tables.view(), e, u)?;
    let w = 2 * e + u32::from(IN);
    let old = word_place(tables, w);
    let new = WordPlace {
        vertex: u,
        after: unless(w, old.after, tables.vertex_field(u, VERTEX_LAST)),
    };
    tried_edits::move_word(tables, head, room, w, old, new)
}

/// Kind 11: vertex a goes right before b; kind 12: right after it.
#[inline(always)]
pub fn order_vertex<const AFTER: bool>(
    tables: &mut Tables<'_>,
    head: Head,
    room: &mut Room<'_>,
    a: u32,
    b: u32,
) -> Result<Made, Refusal>
    requires { HoldsGraph (state_of head tables.old) }
    ensures made { Untyped (ordering_vertex AFTER a b) (attempt_of head tables.old room.old)
        (outcome_of head result tables.new room.new.journal.now) }
    ensures same_loan { SameLoan tables.old tables.new }
    ensures same_room { SameRoom room.old room.new }
{
    change_codes::order_vertices(tables.view().vertices, a, b)?;
    let old = tables.vertex_field(a, VERTEX_PREV);
    let new = place::<AFTER>(a, old, b, tables.vertex_field(b, VERTEX_PREV));
    tried_edits::move_vertex(tables, head, room, a, old, new)
}

/// Kind 13: edge a goes right before b; kind 14: right after it.
#[inline(always)]
pub fn order_edge<const AFTER: bool>(
    tables: &mut Tables<'_>,
    head: Head,
    room: &mut Room<'_>,
    a: u32,
    b: u32,
) -> Result<Made, Refusal>
    requires { HoldsGraph (state_of head tables.old) }
    ensures made { Untyped (ordering_edge AFTER a b) (attempt_of head tables.old room.old)
        (outcome_of head result tables.new room.new.journal.now) }
    ensures same_loan { SameLoan tables.old tables.new }
    ensures same_room { SameRoom room.old room.new }
{
    change_codes::order_edges(tables.view().edges, a, b)?;
    let old = tables.edge_field(a, EDGE_PREV);
    let new = place::<AFTER>(a, old, b, tables.edge_field(b, EDGE_PREV));
    tried_edits::move_edge(tables, head, room, a, old, new)
}

/// Kind 15: word a goes right before b in their list; kind 16: right after it.
#[inline(always)]
pub fn order_word<const AFTER: bool>(
    tables: &mut Tables<'_>,
    head: Head,
    room: &mut Room<'_>,
    a: u32,
    b: u32,
) -> Result<Made, Refusal>
    requires { HoldsGraph (state_of head tables.old) }
    ensures made { Untyped (ordering_word AFTER a b) (attempt_of head tables.old room.old)
        (outcome_of head result tables.new room.new.journal.now) }
    ensures same_loan { SameLoan tables.old tables.new }
    ensures same_room { SameRoom room.old room.new }
{
    change_codes::order_words(tables.view().edges, a, b)?;
    let old = word_place(tables, a);
    let new = WordPlace {
        after: place::<AFTER>(a, old.after, b, tables.half_field(b, HALF_PREV)),
        ..old
    };
    tried_edits::move_word(tables, head, room, a, old, new)
}
