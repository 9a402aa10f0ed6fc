// A change as a call: its codes, the step that it is, its bench, and the marks that it cuts.
// A caller has a store and lent words that stand for a machine with so many types; any change may be asked for. Journal
// and free rows, marks and their words stay parameters, as no plainer: row and set are in the store, which goes by value,
// so a struct of what is lent would be made for one call each.
#![tactic(auto)]

ghost use Rattle.std.specs.Prelude.{◌≡◌, ℕ, ◌+◌, ◌*◌, ◌^◌, ◌≤◌, ◌<◌, length};
ghost use Rattle.commands.specs.Answers.{accepts};
ghost use Rattle.graph_tables.specs.Tables.{SameLoan};
ghost use Rattle.history.specs.Machine.{MarkPlace, at, cut_marks};
ghost use Rattle.journal.specs.Rows.{signed};
ghost use Rattle.marks.specs.Marked.{Marked, mark_words};
ghost use Rattle.timeline.specs.Current.{after_step};
ghost use Rattle.history_calls.specs.Memory.{memory_of};
ghost use Rattle.history_calls.specs.Represents.{Stands, Spare};
ghost use Rattle.change_calls.specs.Altering.{StandsTyped, DoesChange};

use commands::accepted;
use graph::{Change, SingleChange};
use graph_tables::Tables;
use history_calls::{Called, Store};
use journal::room::Room;
use marks::MarkSet;
use timeline::Position;
use tried_edits::Made;

// A change at the present place: the marks above it go. Where no step is cut, none is above it.
#[inline(always)]
fn cut(set: MarkSet, position: Position, marks: &[u32]) -> MarkSet
    requires { length marks.now ≡ mark_words }
    ensures { (ms : ℕ → MarkPlace) → Marked ms set.bits marks.now
        → ((k q : ℕ) → ms k ≡ at q → q ≤ position.steps)
        → Marked (cut_marks position.place ms) result.bits marks.now }
{
    if position.place == position.steps {
        set
    } else {
        set.cut(marks, position.place)
    }
}

// The call of a change that was made: the bench signs the first row of its step, and the marks above the place go.
#[inline(always)]
fn step(store: Store, journal: &mut [u32], marks: &[u32], made: Made) -> Called
    requires place { store.current.position.place + 1 < 2 ^ 32 }
    requires used { store.current.position.used + made.cost < 2 ^ 32 }
    requires row { 12 * store.current.position.used + 12 ≤ length journal.old }
    requires marks { length marks.now ≡ mark_words }
    ensures current { result.store.current ≡ after_step store.current.position made.head made.cost }
    ensures bench { result.store.bench ≡ store.bench }
    ensures cuts { (ms : ℕ → MarkPlace) → Marked ms store.set.bits marks.now
        → ((k q : ℕ) → ms k ≡ at q → q ≤ store.current.position.steps)
        → Marked (cut_marks store.current.position.place ms) result.store.set.bits marks.now }
    ensures answer { result.answer ≡ accepts made.cost }
    ensures signs { journal.new ≡ signed store.current.position.used store.bench journal.old }
{
    let position = store.current.position;
    journal::put_bench(journal, position.used, store.bench);
    let mut current = store.current;
    current.step(made.head, made.cost);
    Called {
        store: Store {
            current,
            set: cut(store.set, position, marks),
            ..store
        },
        answer: accepted(made.cost),
    }
}

// A change of one edit: its kind is chosen once, and codes, row and tables go together.
#[inline(always)]
fn single(
    store: Store,
    tables: &mut Tables<'_>,
    journal: &mut [u32],
    marks: &[u32],
    types: u32,
    free: u32,
    change: SingleChange,
) -> Called
    requires { StandsTyped types free store (memory_of tables.old journal.old marks.now) }
    ensures changes { DoesChange (Change.Single change) types free store (memory_of tables.old journal.old marks.now)
        result (memory_of tables.new journal.new marks.now) }
    ensures same_loan { SameLoan tables.old tables.new }
{
    let mut room = Room {
        journal: &mut *journal,
        row: store.current.position.used,
        free,
    };
    match single_changes::make(tables, store.current.head, &mut room, types, change) {
        Ok(made) if made.cost != 0 => step(store, journal, marks, made),
        Ok(_) => store.answer(Ok(0)),
        Err(refusal) => store.answer(Err(refusal)),
    }
}

// Kind 2.
#[inline(always)]
fn delete_vertex(
    store: Store,
    tables: &mut Tables<'_>,
    journal: &mut [u32],
    marks: &[u32],
    free: u32,
    vertex: u32,
) -> Called
    requires { Stands store (memory_of tables.old journal.old marks.now)
        × Spare free store (memory_of tables.old journal.old marks.now) }
    ensures changes { (types : ℕ) → DoesChange (Change.DeleteVertex vertex) types free store
        (memory_of tables.old journal.old marks.now) result (memory_of tables.new journal.new marks.now) }
    ensures same_loan { SameLoan tables.old tables.new }
{
    match vertex_deletion::delete(tables, store.current, journal, free, vertex) {
        Ok(made) => step(store, journal, marks, made),
        Err(refused) => store.answer(Err(refused)),
    }
}

/// Any change, where so many are free: refused, made, or one that alters nothing. A refused one and one that alters
/// nothing leave every word; else those of tables and journal are left open, but for the machine that they stand for.
#[inline(always)]
pub fn alter(
    store: Store,
    tables: &mut Tables<'_>,
    journal: &mut [u32],
    marks: &[u32],
    types: u32,
    free: u32,
    change: Change,
) -> Called
    requires { StandsTyped types free store (memory_of tables.old journal.old marks.now) }
    ensures changes { DoesChange change types free store (memory_of tables.old journal.old marks.now) result
        (memory_of tables.new journal.new marks.now) }
    ensures same_loan { SameLoan tables.old tables.new }
{
    match change {
        Change::Single(one) => single(store, tables, journal, marks, types, free, one),
        Change::DeleteVertex(vertex) => {
            delete_vertex(store, tables, journal, marks, free, vertex)
        }
    }
}
