// Every call of a list, one after another. What is lent stays slices of words, as a caller has them: `step` makes one of
// the two tables.
ghost use Rattle.std.specs.Prelude.{◌≡◌, ℕ, ◌*◌, ◌/◌, ◌≤◌, length, List};
ghost use Rattle.history.specs.Machine.{Machine};
ghost use Rattle.machine.specs.Calls.{Parameters};
ghost use Rattle.commands.specs.Calls.{Call, call_at, calls_of};
ghost use Rattle.commands.specs.Commands.{command_of};
ghost use Rattle.history_calls.specs.Memory.{memory};
ghost use Rattle.engine.specs.Running.{Running, Runs, Granted, allowing, Answers};
ghost use Rattle.engine.specs.Calls.{Reads, AllNear, AfterCalls};

use crate::step::step;
use commands::{Answer, decode};
use history_calls::{Called, Store};

/// Answers so many calls by two words each, code and number, where so many changes may be remembered up to the place; no
/// call may lead farther than that. The five words of a call begin `width` words behind those of the one before. The
/// words of tables, journal and marks are left open, but for the machine that they stand for.
pub fn carry_out(
    store: Store,
    vertices: &mut [u32],
    edges: &mut [u32],
    journal: &mut [u32],
    marks: &mut [u32],
    closed: &[u64; 64],
    types: u32,
    capacity: u32,
    calls: &[u32],
    width: usize,
    count: usize,
    answers: &mut [u32],
) -> Store
    requires running { (w : Parameters) × (m : Machine) × (xs : List Call)
        × Running w store (memory vertices.old edges.old journal.old marks.old) closed.now types m
        × Reads width count calls.now xs × AllNear (allowing capacity w) m xs }
    requires granted { Granted capacity store journal.old }
    requires count_in_bounds { (2 * count ≤ length answers.old) × (width ≤ 6) }
    ensures { (w : Parameters) → (m : Machine) → (xs : List Call)
        → Running w store (memory vertices.old edges.old journal.old marks.old) closed.now types m
        → Reads width count calls.now xs → AllNear (allowing capacity w) m xs
        → AfterCalls w capacity m xs result (memory vertices.new edges.new journal.new marks.new) closed.now types
        answers.old answers.new }
{
    let mut present = store.same();
    // Where the next call begins: reckoned from k, it takes up to 13 in 100 more.
    let mut at = 0;
    for k in 0..count {
        let command = decode(&calls[at..at + 5]);
        at += width;
        let done = step(
            present, vertices, edges, journal, marks, closed, types, capacity, command,
        );
        present = done.store.same();
        answers[2 * k] = done.answer.code;
        answers[2 * k + 1] = done.answer.number;
    }
    present
}

/// Every call of a store alone, five words each: all rows of its journal may be used, so that no call leads too far.
pub fn each(
    store: Store,
    vertices: &mut [u32],
    edges: &mut [u32],
    journal: &mut [u32],
    marks: &mut [u32],
    closed: &[u64; 64],
    types: u32,
    calls: &[u32],
    answers: &mut [u32],
) -> Store
    requires runs { Runs store vertices.old edges.old journal.old marks.old closed.now types }
    requires calls_in_bounds { 2 * (length calls.now / 5) ≤ length answers.old }
    ensures { (w : Parameters) → (m : Machine)
        → Running w store (memory vertices.old edges.old journal.old marks.old) closed.now types m
        → AfterCalls w w.changes m (calls_of calls.now) result (memory vertices.new edges.new journal.new marks.new)
        closed.now types answers.old answers.new }
{
    let capacity = (journal.len() / 12) as u32;
    carry_out(
        store,
        vertices,
        edges,
        journal,
        marks,
        closed,
        types,
        capacity,
        calls,
        5,
        calls.len() / 5,
        answers,
    )
}

/// One call by the same loop, so that a step is compiled once. A caller has a call's five words. The words of tables,
/// journal and marks are left open as above, after a refused call too.
pub fn one(
    store: Store,
    vertices: &mut [u32],
    edges: &mut [u32],
    journal: &mut [u32],
    marks: &mut [u32],
    closed: &[u64; 64],
    types: u32,
    call: &[u32],
) -> Called
    requires runs { Runs store vertices.old edges.old journal.old marks.old closed.now types }
    requires call_len { length call.now ≡ 5 }
    ensures { Answers (command_of (call_at call.now)) (length journal.old / 12) store result
        (memory vertices.old edges.old journal.old marks.old) (memory vertices.new edges.new journal.new marks.new)
        closed.now types }
{
    let mut answer = [0u32; 2];
    let store = each(
        store,
        vertices,
        edges,
        journal,
        marks,
        closed,
        types,
        call,
        &mut answer,
    );
    Called {
        store,
        answer: Answer {
            code: answer[0],
            number: answer[1],
        },
    }
}
