// Lists made small: of a list that ends with a refused call, earlier calls are left out as long as that call keeps its
// code.
#![tactic(auto)]

ghost use Rattle.std.specs.Prelude.{◌≡◌, ◌≢◌, true, false, ◌++◌, ◌+◌, ◌-◌, ◌*◌, ◌≤◌, ◌<◌, length, take, drop};
ghost use Rattle.lists.specs.Lists.{overwritten, range, concat_map, without};
ghost use Rattle.history.specs.Machine.{Machine};
ghost use Rattle.image.specs.Image.{load};
ghost use Rattle.machine.specs.Calls.{Parameters};
ghost use Rattle.machine.specs.Machine.{answers as answers_of};
ghost use Rattle.machine.specs.Run.{list_refusal};
ghost use Rattle.history_calls.specs.Memory.{memory};
ghost use Rattle.engine.specs.Running.{Running, Runs};
ghost use Rattle.engine.specs.Outcomes.{lent};
ghost use Rattle.reduction.specs.Reduction.{reduced as reduced_of};
ghost use Rattle.reduction.specs.Trials.{last_of, last_code, calls_at, left_out, Numbered, CanTry, Ready};
ghost use Rattle.reduction.specs.Outcomes.{words_of, too_long, after_reduction, reduction};
ghost use Rattle.reduction.specs.Refused.{refused_reduction};
ghost use Rattle.reduction.specs.Outcomes.{Untouched, IsLeast, Searched};
ghost use Rattle.lists.specs.Slices.{slice};

use engine::begin::begin;
use engine::calls::one;
use engine::list_refusal::ListRefusal;
use engine::refusals::refusal;
use history_calls::Store;
use type_rows::closure;

const MOST_CALLS: usize = 20000;

/// What a reduction returns. The layout is that of include/futtockfig.h.
#[repr(C)]
#[derive(Clone, Copy, Debug, PartialEq, Eq)]
pub struct Reduction {
    /// 0, or why the list is refused.
    pub code: u32,
    /// How many calls are kept; of a refused list the number beside its code.
    pub kept: usize,
    /// How many runs were made; of a refused list 0.
    pub runs: usize,
}

impl From<ListRefusal> for Reduction {
    ghost from_gives = { λ r result. result ≡ refused_reduction r };

    fn from(refusal: ListRefusal) -> Reduction {
        Reduction {
            code: refusal.code(),
            kept: refusal.number(),
            runs: 0,
        }
    }
}

/// How many calls are still kept, and which of them is tried next.
#[derive(Clone, Copy, Debug, PartialEq, Eq)]
pub struct Trying {
    pub count: usize,
    pub at: usize,
}

// The number i of each call.
fn number_calls(kept: &mut [u32])
    requires { length kept.old ≤ 20000 }
    ensures { kept.new ≡ range (length kept.old) }
{
    for i in 0..kept.len() {
        kept[i] = i as u32;
    }
}

// Runs the calls whose numbers are kept, without the one at `skip`: the code of the last one, 0 without any.
fn last_code(
    store: Store,
    vertices: &mut [u32],
    edges: &mut [u32],
    journal: &mut [u32],
    marks: &mut [u32],
    closed: &[u64; 64],
    types: u32,
    calls: &[u32],
    kept: &[u32],
    skip: Option<usize>,
) -> u32
    requires runs { Runs store vertices.old edges.old journal.old marks.old closed.now types }
    requires numbered { Numbered calls.now kept.now (length kept.now) }
    ensures { (w : Parameters) → (m : Machine)
        → Running w store (memory vertices.old edges.old journal.old marks.old) closed.now types m
        → result ≡ last_of 0 (answers_of w m (calls_at calls.now (left_out skip kept.now))) }
{
    let mut y = store;
    let mut code = 0;
    for i in 0..kept.len() {
        if skip == Some(i) {
            continue;
        }
        let at = 5 * kept[i] as usize;
        let done = one(
            y,
            vertices,
            edges,
            journal,
            marks,
            closed,
            types,
            &calls[at..at + 5],
        );
        y = done.store;
        code = done.answer.code;
    }
    code
}

// One list that is tried, on a fresh store.
fn trial(
    start: &[u32],
    vertices: &mut [u32],
    edges: &mut [u32],
    journal: &mut [u32],
    closed: &[u64; 64],
    types: u32,
    calls: &[u32],
    kept: &[u32],
    skip: Option<usize>,
) -> u32
    requires can_try { CanTry start.now vertices.old edges.old journal.old closed.now types }
    requires numbered { Numbered calls.now kept.now (length kept.now) }
    ensures { (w : Parameters) → Ready w start.now vertices.old edges.old journal.old closed.now types
        → result ≡ last_code w (load start.now) (calls_at calls.now (left_out skip kept.now)) }
{
    let begun = begin(start, vertices, edges);
    let mut marks = [0u32; marks::WORDS];
    last_code(
        begun, vertices, edges, journal, &mut marks, closed, types, calls, kept, skip,
    )
}

// Drops the number at `at`: those behind it move down by one. The last word stays.
fn drop_call(kept: &mut [u32], at: usize)
    requires { at < length kept.old }
    ensures { kept.new ≡ without at kept.old ++ drop (length kept.old - 1) kept.old }
{
    kept.copy_within(at + 1.., at);
}

// After a trial: the call is dropped and the search begins again, or the next one is tried.
fn next_search(kept: &mut [u32], s: Trying, alike: bool) -> Trying
    requires at { s.at < s.count }
    requires count { s.count ≤ length kept.old }
    ensures dropped { alike ≡ true → (result.count ≡ s.count - 1) × (result.at ≡ 0) × (kept.new
        ≡ without s.at (take s.count kept.old) ++ drop (s.count - 1) kept.old) }
    ensures needed { alike ≡ false → (result.count ≡ s.count) × (result.at ≡ s.at + 1)
        × (kept.new ≡ kept.old) }
{
    if alike {
        drop_call(&mut kept[..s.count], s.at);
        Trying {
            count: s.count - 1,
            at: 0,
        }
    } else {
        Trying { at: s.at + 1, ..s }
    }
}

// Drops what can be dropped. `kept` is left with the numbers of the calls that stay at its front.
fn search(
    start: &[u32],
    vertices: &mut [u32],
    edges: &mut [u32],
    journal: &mut [u32],
    closed: &[u64; 64],
    types: u32,
    calls: &[u32],
    kept: &mut [u32],
    wanted: u32,
) -> Reduction
    requires can_try { CanTry start.now vertices.old edges.old journal.old closed.now types }
    requires numbered { Numbered calls.now kept.old (length kept.old) }
    ensures { (w : Parameters) → Ready w start.now vertices.old edges.old journal.old closed.now types
        → wanted ≡ last_code w (load start.now) (calls_at calls.now kept.old)
        → Searched calls.now kept.new (length kept.old) result (reduced_of (last_code w (load start.now))
        (calls_at calls.now kept.old)) }
{
    let mut s = Trying {
        count: kept.len(),
        at: 0,
    };
    let mut runs = 1;
    // Two numbers end it, and the second goes back to 0: `for` is no plainer.
    while s.at + 1 < s.count {
        let code = trial(
            start,
            vertices,
            edges,
            journal,
            closed,
            types,
            calls,
            &kept[..s.count],
            Some(s.at),
        );
        s = next_search(kept, s, code == wanted);
        runs += 1;
    }
    Reduction {
        code: 0,
        kept: s.count,
        runs,
    }
}

// The calls of the numbers that are kept, to the front of the lent list.
fn write_calls(list: &mut [u32], calls: &[u32], kept: &[u32])
    requires numbered { Numbered calls.now kept.now (length kept.now) }
    requires room { 5 * length kept.now ≤ length list.old }
    ensures { list.new ≡ overwritten (concat_map words_of (calls_at calls.now kept.now)) list.old }
{
    for i in 0..kept.len() {
        let at = 5 * kept[i] as usize;
        list[5 * i..5 * i + 5].copy_from_slice(&calls[at..at + 5]);
    }
}

// A list that no run refuses, and that is not too long.
fn reduced(
    start: &[u32],
    rows: &[u64],
    calls: &[u32],
    vertices: &mut [u32],
    edges: &mut [u32],
    journal: &mut [u32],
    answers: &mut [u32],
    image: &[u32],
    list: &mut [u32],
) -> Reduction
    requires image_value { list_refusal (lent start.now rows.now calls.now
        vertices.old edges.old journal.old answers.old image.now) ≡ 0 }
    requires list_value { too_long (lent start.now rows.now calls.now
        vertices.old edges.old journal.old answers.old image.now) (length list.old) ≡ false }
    ensures { after_reduction result list.new
        ≡ reduction (lent start.now rows.now calls.now vertices.old edges.old journal.old answers.old image.now) list.old }
{
    let closed = closure(rows);
    let types = rows.len() as u32;
    let kept = &mut answers[..calls.len() / 5];
    number_calls(kept);
    let wanted = trial(
        start, vertices, edges, journal, &closed, types, calls, kept, None,
    );
    if wanted == 0 {
        return Reduction::from(ListRefusal::NoFailure);
    }
    let found = search(
        start, vertices, edges, journal, &closed, types, calls, kept, wanted,
    );
    write_calls(list, calls, &kept[..found.kept]);
    found
}

/// The result and the lent list are those of the specification, whatever is lent; image is only measured. Refused by a
/// code of the run or by 114, nothing is written; else what tables, journal and answers hold is left open.
pub fn reduce(
    start: &[u32],
    rows: &[u64],
    calls: &[u32],
    vertices: &mut [u32],
    edges: &mut [u32],
    journal: &mut [u32],
    answers: &mut [u32],
    image: &[u32],
    list: &mut [u32],
) -> Reduction
    ensures list_after { after_reduction result list.new
        ≡ reduction (lent start.now rows.now calls.now vertices.old edges.old journal.old answers.old image.now) list.old }
    ensures untouched { Untouched result (slice vertices.old vertices.new) (slice edges.old edges.new)
        (slice journal.old journal.new) (slice answers.old answers.new) }
    ensures least { IsLeast (lent start.now rows.now calls.now vertices.old edges.old journal.old answers.old image.now) result list.new }
{
    if let Err(refused) = refusal(
        start,
        rows,
        calls.len(),
        vertices.len(),
        edges.len(),
        journal.len(),
        answers.len(),
        image.len(),
    ) {
        return Reduction::from(refused);
    }
    if MOST_CALLS < calls.len() / 5 || list.len() < calls.len() {
        return Reduction::from(ListRefusal::BadList);
    }
    reduced(
        start, rows, calls, vertices, edges, journal, answers, image, list,
    )
}
