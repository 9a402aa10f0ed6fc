// A run: what is lent, the calls, the result. The C interface lends eight slices and is told a record of three numbers.
ghost use Rattle.std.specs.Prelude.{◌≡◌};
ghost use Rattle.machine.specs.Demands.{Demand2};
ghost use Rattle.machine.specs.Run.{list_refusal, accepted as accepted_of, run as run_of};
ghost use Rattle.engine.specs.Outcomes.{lent, run_result, Untouched, MeetsDemand1, MeetsDemand3};
ghost use Rattle.engine.specs.Refusals.{refused_result};
ghost use Rattle.lists.specs.Slices.{slice};

use crate::begin::begin;
use crate::calls::each;
use crate::list_refusal::ListRefusal;
use crate::refusals::refusal;
use image_tables::save;
use type_rows::closure;

/// What a run returns. The layout is that of include/futtockfig.h.
#[repr(C)]
#[derive(Clone, Copy, Debug, PartialEq, Eq)]
pub struct RunResult {
    /// 0, or why the list is refused.
    pub code: u32,
    /// How many calls were done; of a refused list the number beside its code.
    pub done: usize,
    /// How many words the end image has; of a refused list 0.
    pub words: usize,
}

impl From<ListRefusal> for RunResult {
    ghost from_gives = { λ r result. result ≡ refused_result r };

    fn from(refusal: ListRefusal) -> RunResult {
        RunResult {
            code: refusal.code(),
            done: refusal.number(),
            words: 0,
        }
    }
}

/// A list that is not refused. What the tables and the journal hold afterwards is left open.
fn accepted(
    start: &[u32],
    rows: &[u64],
    calls: &[u32],
    vertices: &mut [u32],
    edges: &mut [u32],
    journal: &mut [u32],
    answers: &mut [u32],
    image: &mut [u32],
) -> RunResult
    requires { list_refusal (lent start.now rows.now calls.now
        vertices.old edges.old journal.old answers.old image.old) ≡ 0 }
    ensures { run_result result answers.new image.new
        ≡ accepted_of (lent start.now rows.now calls.now vertices.old edges.old journal.old answers.old image.old) }
{
    let closed = closure(rows);
    let types = rows.len() as u32;
    let begun = begin(start, vertices, edges);
    let mut marks = [0u32; marks::WORDS];
    let after = each(
        begun, vertices, edges, journal, &mut marks, &closed, types, calls, answers,
    );
    let last = after.current.head;
    let words = save(last, vertices, edges, image);
    RunResult {
        code: 0,
        done: calls.len() / 5,
        words,
    }
}

/// The result, the answers and the end image are those of the specification's run of the lent words, whatever they are.
/// A refused list writes nowhere. After an accepted one, what the tables and the journal hold is left open. The demands
/// hold of the result: 1 and 2 of every one, 3 (the way back) of an accepted one.
pub fn run(
    start: &[u32],
    rows: &[u64],
    calls: &[u32],
    vertices: &mut [u32],
    edges: &mut [u32],
    journal: &mut [u32],
    answers: &mut [u32],
    image: &mut [u32],
) -> RunResult
    ensures image_value { run_result result answers.new image.new
        ≡ run_of (lent start.now rows.now calls.now vertices.old edges.old journal.old answers.old image.old) }
    ensures untouched { Untouched (lent start.now rows.now calls.now vertices.old edges.old journal.old answers.old image.old)
        (slice vertices.old vertices.new) (slice edges.old edges.new) (slice journal.old journal.new) }
    ensures meets_demand1 { MeetsDemand1
        (lent start.now rows.now calls.now vertices.old edges.old journal.old answers.old image.old)
        (run_result result answers.new image.new) (slice vertices.old vertices.new) (slice edges.old edges.new)
        (slice journal.old journal.new) }
    ensures demand2 { Demand2 (lent start.now rows.now calls.now vertices.old edges.old journal.old answers.old image.old)
        (run_result result answers.new image.new) }
    ensures meets_demand3 { MeetsDemand3 (lent start.now rows.now calls.now vertices.old edges.old journal.old answers.old image.old)
        (run_result result answers.new image.new) }
{
    if let Err(refused) = refusal(
        start,
        rows,
        calls.len(),
        vertices.len(),
        edges.len(),
        journal.len(),
        answers.len(),
        image.len(),
    ) {
        return RunResult::from(refused);
    }
    accepted(start, rows, calls, vertices, edges, journal, answers, image)
}
