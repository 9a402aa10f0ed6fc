// One call on the tables, the journal and the marks.
ghost use Rattle.graph_tables.specs.Tables.{SameLoan};
ghost use Rattle.history_calls.specs.Memory.{memory, memory_of};
ghost use Rattle.history_calls.specs.Outcomes.{Leaves};
ghost use Rattle.engine.specs.Running.{Runs, Granted, AnswersNear};

use commands::Command;
use commands::refusal::Refusal;
use graph_tables::Tables;
use history_calls::{Called, Store};
use price_calls::quote;
use question_calls::reply;

/// `step`, of tables that are lent as one.
#[inline(always)]
fn step_on(
    store: Store,
    tables: &mut Tables<'_>,
    journal: &mut [u32],
    marks: &mut [u32],
    closed: &[u64; 64],
    types: u32,
    capacity: u32,
    command: Command,
) -> Called
    requires { Runs store tables.old.vertices.now tables.old.edges.now journal.old marks.old closed.now types
        × Granted capacity store journal.old }
    ensures answers_near { AnswersNear command capacity store result (memory_of tables.old journal.old marks.old)
        (memory_of tables.new journal.new marks.new) closed.now types }
    ensures leaves { Leaves store (memory_of tables.old journal.old marks.old) result (memory_of tables.new journal.new marks.new) }
    ensures same_loan { SameLoan tables.old tables.new }
{
    match command {
        Command::Alter(change) => {
            let free = capacity - store.current.position.used;
            change_calls::alter(store, tables, journal, marks, types, free, change)
        }
        Command::History(call) => {
            let free = capacity - store.current.position.used;
            store.perform(tables, journal, marks, free, call)
        }
        Command::Ask(question) => {
            let answer = reply(store.current.head, &tables.view(), closed, types, question);
            store.stay(answer.code, answer.number)
        }
        Command::Quote(call) => {
            let answer = quote(&tables.view(), call);
            store.stay(answer.code, answer.number)
        }
        Command::Unknown => store.answer(Err(Refusal::UnknownKind)),
    }
}

/// Any command, where so many changes may be remembered up to the place. What a redo, or a call to a mark or a name,
/// that needs more answers is left open: with all rows of the journal there is none, and who lends fewer tests it before.
/// A refused command leaves every lent word; else those of tables, journal and marks are left open, but for the machine
/// that they stand for.
pub fn step(
    store: Store,
    vertices: &mut [u32],
    edges: &mut [u32],
    journal: &mut [u32],
    marks: &mut [u32],
    closed: &[u64; 64],
    types: u32,
    capacity: u32,
    command: Command,
) -> Called
    requires { Runs store vertices.old edges.old journal.old marks.old closed.now types × Granted capacity store journal.old }
    ensures answers_near { AnswersNear command capacity store result (memory vertices.old edges.old journal.old marks.old)
        (memory vertices.new edges.new journal.new marks.new) closed.now types }
    ensures leaves { Leaves store (memory vertices.old edges.old journal.old marks.old) result (memory vertices.new edges.new journal.new marks.new) }
{
    step_on(
        store,
        &mut Tables { vertices, edges },
        journal,
        marks,
        closed,
        types,
        capacity,
        command,
    )
}
