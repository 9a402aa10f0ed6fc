// The recorder: a saved copy of the graph after every step. Undo, redo and going to a mark load the copy of the place,
// and no edit is undone; every other call is the main engine's. A recorded run is lent the slices of a run, as C lends them.
#![tactic(auto)]

ghost use Rattle.std.specs.Prelude.{◌≡◌, List, [], ◌++◌, ℕ, ◌*◌, ◌/◌, ◌≤◌, ◌<◌, length};
ghost use Rattle.graph.specs.Graph.{Graph};
ghost use Rattle.history.specs.Machine.{Machine};
ghost use Rattle.image.specs.Image.{image_length};
ghost use Rattle.commands.specs.Calls.{call_at, calls_of};
ghost use Rattle.commands.specs.Commands.{command_of};
ghost use Rattle.machine.specs.Calls.{Parameters, bounds_in};
ghost use Rattle.machine.specs.Rules.{history_rule};
ghost use Rattle.machine.specs.Machine.{step_to};
ghost use Rattle.machine.specs.Run.{list_refusal, accepted as accepted_of};
ghost use Rattle.history_calls.specs.Memory.{memory};
ghost use Rattle.history_calls.specs.Represents.{Represents, Follows};
ghost use Rattle.history_calls.specs.Outcomes.{Leads};
ghost use Rattle.engine.specs.Running.{Running, Answered};
ghost use Rattle.engine.specs.Calls.{AfterCalls};
ghost use Rattle.engine.specs.Outcomes.{lent, MeetsDemand3, run_result};
ghost use Rattle.copies.specs.Copies.{stretch, graph_made, step_graphs, changes_in, recorded};
ghost use Rattle.copies.specs.Recording.{Covers, role_of};
ghost use Rattle.recorder.specs.Asked.{CanRecord, CanAdd, CanBegin, HasStretch, called_by};
ghost use Rattle.recorder.specs.Outcomes.{made_in, after_recording, recording};
ghost use Rattle.recorder.specs.Outcomes.{Untouched, MeetsDemand1, MeetsDemand2};
ghost use Rattle.lists.specs.Slices.{slice};

use commands::{Answer, HistoryCall};
use copies::{PLACES, Places, Role, changes_in, copies_after, leads_to, reload, role_of};
use engine::begin::begin;
use engine::calls::one;
use engine::list_refusal::ListRefusal;
use engine::refusals::refusal;
use engine::run::RunResult;
use history_calls::{Called, Store};
use image::layout::length as image_length;
use image_tables::save;
use marks::between;
use type_rows::closure;

/// The store, the number of copies, and the answer to a call.
#[derive(Clone, Copy, Debug, PartialEq, Eq)]
pub struct Progress {
    pub store: Store,
    pub count: usize,
    pub answer: Answer,
}

// Kinds 19, 20, 21 and 57: the copy of the place is loaded. The journal's rows are not read.
fn go_by_copy(
    store: Store,
    start: &[u32],
    vertices: &mut [u32],
    edges: &mut [u32],
    journal: &[u32],
    marks: &[u32],
    copies: &[u32],
    size: usize,
    places: &Places,
    call: HistoryCall,
) -> Called
    requires leads { Leads call × (length journal.now < 240012) }
    requires by_index { (w : Parameters) × (m : Machine) × (lent : List ℕ) × (gs : List Graph) × (n : ℕ)
        × Represents (bounds_in w) store (memory vertices.old edges.old journal.now marks.now) m
        × Covers w start.now lent copies.now places.now.numbers places.now.used gs n m × (size ≡ stretch w) }
    ensures { (w : Parameters) → (m : Machine) → (lent : List ℕ) → (gs : List Graph) → (n : ℕ)
        → Represents (bounds_in w) store (memory vertices.old edges.old journal.now marks.now) m
        → Covers w start.now lent copies.now places.now.numbers places.now.used gs n m
        → size ≡ stretch w → (capacity : ℕ) → Follows (history_rule capacity call) m (bounds_in w) result
        (memory vertices.new edges.new journal.now marks.now) }
{
    let place = match leads_to(store, marks, call) {
        Ok(place) => place,
        Err(refusal) => return store.answer(Err(refusal)),
    };
    let copy = places.numbers[place as usize];
    let head = reload(start, copies, size, copy, vertices, edges);
    let mut after = store;
    after
        .current
        .move_to(head, place, places.used[place as usize]);
    after.answer(Ok(between(store.current.position.place, place)))
}

// Any call: a move by its copy, every other by the main engine.
fn performed(
    store: Store,
    start: &[u32],
    vertices: &mut [u32],
    edges: &mut [u32],
    journal: &mut [u32],
    marks: &mut [u32],
    closed: &[u64; 64],
    types: u32,
    call: &[u32],
    copies: &[u32],
    size: usize,
    places: &Places,
    role: Role,
) -> Called
    requires call_len { (length call.now ≡ 5) × (role ≡ role_of (command_of (call_at call.now))) }
    requires can_record { CanRecord store start.now vertices.old edges.old journal.old marks.old closed.now types copies.now size
        places.now.numbers places.now.used }
    ensures { (w : Parameters) → (m : Machine) → (lent : List ℕ) → (gs : List Graph) → (n : ℕ)
        → Running w store (memory vertices.old edges.old journal.old marks.old) closed.now types m
        → Covers w start.now lent copies.now places.now.numbers places.now.used gs n m
        → size ≡ stretch w
        → Answered w w.changes m (command_of (call_at call.now)) result (memory vertices.new edges.new journal.new marks.new)
        closed.now types }
{
    match role {
        Role::Move(move_call) => go_by_copy(
            store, start, vertices, edges, journal, marks, copies, size, places, move_call,
        ),
        _ => one(store, vertices, edges, journal, marks, closed, types, call),
    }
}

// One call: its answer, the store after it, the copies after it.
fn record_call(
    store: Store,
    count: usize,
    start: &[u32],
    vertices: &mut [u32],
    edges: &mut [u32],
    journal: &mut [u32],
    marks: &mut [u32],
    closed: &[u64; 64],
    types: u32,
    call: &[u32],
    copies: &mut [u32],
    size: usize,
    places: &mut Places,
) -> Progress
    requires call_len { (length call.now ≡ 5) × HasStretch call.now size count (length copies.old) }
    requires can_add { CanAdd store start.now vertices.old edges.old journal.old marks.old closed.now types copies.old size
        places.old.numbers places.old.used count }
    ensures { (w : Parameters) → (m : Machine) → (lent : List ℕ) → (gs : List Graph)
        → Running w store (memory vertices.old edges.old journal.old marks.old) closed.now types m
        → Covers w start.now lent copies.old places.old.numbers places.old.used gs count m
        → size ≡ stretch w
        → Answered w w.changes m (command_of (call_at call.now)) (called_by result)
        (memory vertices.new edges.new journal.new marks.new) closed.now types
        × Covers w start.now lent copies.new places.new.numbers places.new.used
        (gs ++ graph_made w m (command_of (call_at call.now))) result.count
        (step_to w m (command_of (call_at call.now))) }
{
    let role = role_of(call);
    let place = store.current.position.place;
    let done = performed(
        store, start, vertices, edges, journal, marks, closed, types, call, copies, size, places,
        role,
    );
    let count = copies_after(
        role,
        done.answer.number,
        place,
        done.store.current,
        vertices,
        edges,
        copies,
        size,
        places,
        count,
    );
    Progress {
        store: done.store,
        count,
        answer: done.answer,
    }
}

// Every call of the list; each is answered by two words.
fn record_all(
    store: Store,
    start: &[u32],
    vertices: &mut [u32],
    edges: &mut [u32],
    journal: &mut [u32],
    marks: &mut [u32],
    closed: &[u64; 64],
    types: u32,
    calls: &[u32],
    answers: &mut [u32],
    copies: &mut [u32],
    size: usize,
    places: &mut Places,
) -> Store
    requires can_begin { CanBegin store start.now vertices.old edges.old journal.old marks.old closed.now types copies.old size places.old.numbers places.old.used }
    requires calls_in_bounds { (2 * (length calls.now / 5) ≤ length answers.old)
        × (size * changes_in (calls_of calls.now) ≤ length copies.old) }
    ensures { (w : Parameters) → (m : Machine)
        → Running w store (memory vertices.old edges.old journal.old marks.old) closed.now types m
        → Covers w start.now copies.old copies.old places.old.numbers
        places.old.used [] 0 m → size ≡ stretch w
        → AfterCalls w w.changes m (calls_of calls.now) result (memory vertices.new edges.new journal.new marks.new)
        closed.now types answers.old answers.new
        × (copies.new ≡ recorded (stretch w) (step_graphs w m (calls_of calls.now))
        copies.old) }
{
    let mut y = store;
    let mut count = 0;
    for k in 0..calls.len() / 5 {
        let made = record_call(
            y,
            count,
            start,
            vertices,
            edges,
            journal,
            marks,
            closed,
            types,
            &calls[5 * k..5 * k + 5],
            copies,
            size,
            places,
        );
        y = made.store;
        count = made.count;
        answers[2 * k] = made.answer.code;
        answers[2 * k + 1] = made.answer.number;
    }
    y
}

// A list that is not refused.
fn accepted(
    start: &[u32],
    rows: &[u64],
    calls: &[u32],
    vertices: &mut [u32],
    edges: &mut [u32],
    journal: &mut [u32],
    answers: &mut [u32],
    image: &mut [u32],
    copies: &mut [u32],
    size: usize,
) -> RunResult
    requires image_value { list_refusal (lent start.now rows.now calls.now
        vertices.old edges.old journal.old answers.old image.old) ≡ 0 }
    requires size_value { (size ≡ image_length (length vertices.old / 8) (length edges.old / 12))
        × (size * changes_in (calls_of calls.now) ≤ length copies.old) }
    ensures { (run_result result answers.new image.new ≡ accepted_of
        (lent start.now rows.now calls.now vertices.old edges.old journal.old answers.old image.old))
        × (copies.new ≡ recorded size (made_in (lent start.now rows.now calls.now vertices.old edges.old journal.old answers.old image.old))
        copies.old) }
{
    let closed = closure(rows);
    let types = rows.len() as u32;
    let begun = begin(start, vertices, edges);
    let mut marks = [0u32; marks::WORDS];
    let mut places = Places {
        numbers: [0; PLACES],
        used: [0; PLACES],
    };
    let after = record_all(
        begun,
        start,
        vertices,
        edges,
        journal,
        &mut marks,
        &closed,
        types,
        calls,
        answers,
        copies,
        size,
        &mut places,
    );
    let words = save(after.current.head, vertices, edges, image);
    RunResult {
        code: 0,
        done: calls.len() / 5,
        words,
    }
}

/// The result, the answers, the end image and the copies are those of the specification, whatever is lent, and all but
/// the copies are the main engine's. A refused list writes nowhere; else what tables and journal hold is left open.
pub fn record_run(
    start: &[u32],
    rows: &[u64],
    calls: &[u32],
    vertices: &mut [u32],
    edges: &mut [u32],
    journal: &mut [u32],
    answers: &mut [u32],
    image: &mut [u32],
    copies: &mut [u32],
) -> RunResult
    ensures copies_after { after_recording (run_result result answers.new image.new) copies.new
        ≡ recording (lent start.now rows.now calls.now vertices.old edges.old journal.old answers.old image.old) copies.old }
    ensures untouched { Untouched (lent start.now rows.now calls.now vertices.old edges.old journal.old answers.old image.old)
        (length copies.old) (slice vertices.old vertices.new) (slice edges.old edges.new) (slice journal.old journal.new) }
    ensures meets_demand1 { MeetsDemand1
        (lent start.now rows.now calls.now vertices.old edges.old journal.old answers.old image.old)
        (run_result result answers.new image.new) (slice vertices.old vertices.new) (slice edges.old edges.new)
        (slice journal.old journal.new) }
    ensures meets_demand2 { MeetsDemand2 (lent start.now rows.now calls.now vertices.old edges.old journal.old answers.old image.old)
        (run_result result answers.new image.new) }
    ensures meets_demand3 { MeetsDemand3 (lent start.now rows.now calls.now vertices.old edges.old journal.old answers.old image.old)
        (run_result result answers.new image.new) }
{
    if let Err(refused) = refusal(
        start,
        rows,
        calls.len(),
        vertices.len(),
        edges.len(),
        journal.len(),
        answers.len(),
        image.len(),
    ) {
        return RunResult::from(refused);
    }
    let size = image_length((vertices.len() / 8) as u32, (edges.len() / 12) as u32);
    if copies.len() / size < changes_in(calls) {
        return RunResult::from(ListRefusal::ShortCopies);
    }
    accepted(
        start, rows, calls, vertices, edges, journal, answers, image, copies, size,
    )
}
