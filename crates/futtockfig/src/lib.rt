// The run of one store and of several, the parts of an image, the page, the comparison of two images, calls for an
// order, the recorded run and the reduction of a list, for programs in C and Rust: include/futtockfig.h says it in C.
// A result that C is told is a flat record with a code in it.
#![tactic(auto)]

ghost use Rattle.std.specs.Prelude.{◌≡◌, length};
ghost use Rattle.machine.specs.Demands.{Demand2};
ghost use Rattle.machine.specs.Run.{run as run_of};
ghost use Rattle.image.specs.Image.{part as part_of};
ghost use Rattle.image.specs.Parts.{part_start};
ghost use Rattle.engine.specs.Outcomes.{Untouched, MeetsDemand1, MeetsDemand3, lent, run_result};
ghost use Rattle.machine.specs.StoreRun.{run_in};
ghost use Rattle.machine.specs.StoreDemands.{Demand2In};
ghost use Rattle.stores.specs.Outcomes.{several, UntouchedIn, BehindStays, MeetsDemand1In, MeetsDemand3In};
ghost use Rattle.page.specs.Page.{page_of, printed};
ghost use Rattle.arrangement.specs.Orders.{outcome, vertex_order, edge_order, word_order};
ghost use Rattle.comparison.specs.Comparison.{comparison};
ghost use Rattle.recorder.specs.Outcomes.{after_recording, recording, Untouched as LeavesTables};
ghost use Rattle.recorder.specs.Outcomes.{MeetsDemand1 as Records1, MeetsDemand2 as Records2};
ghost use Rattle.reduction.specs.Outcomes.{after_reduction, reduction as reduction_of, IsLeast};
ghost use Rattle.reduction.specs.Outcomes.{Untouched as LeavesAll};
ghost use Rattle.lists.specs.Slices.{slice};

use arrangement::{Arrangement, arrange_edges, arrange_vertices, arrange_words};
use comparison::{Compared, compare};
use engine::run::{RunResult, run};
use page::{Printed, print};
use recorder::record_run;
use reduction::{Reduction, reduce};
use stores::run::run as run_stores;

/// The version of what a caller sees, as include/futtockfig.h has it.
#[unsafe(no_mangle)]
pub extern "C" fn futtockfig_version() -> u32
    ensures { result ≡ 17 }
{
    17
}

/// A slice is a pointer and a length.
#[unsafe(no_mangle)]
pub extern "C" fn futtockfig_run(
    start: &[u32],
    rows: &[u64],
    calls: &[u32],
    vertices: &mut [u32],
    edges: &mut [u32],
    journal: &mut [u32],
    answers: &mut [u32],
    image: &mut [u32],
) -> RunResult
    ensures image_value { run_result result answers.new image.new
        ≡ run_of (lent start.now rows.now calls.now vertices.old edges.old journal.old answers.old image.old) }
    ensures untouched { Untouched (lent start.now rows.now calls.now vertices.old edges.old journal.old answers.old image.old)
        (slice vertices.old vertices.new) (slice edges.old edges.new) (slice journal.old journal.new) }
    ensures meets_demand1 { MeetsDemand1
        (lent start.now rows.now calls.now vertices.old edges.old journal.old answers.old image.old)
        (run_result result answers.new image.new) (slice vertices.old vertices.new) (slice edges.old edges.new)
        (slice journal.old journal.new) }
    ensures demand2 { Demand2 (lent start.now rows.now calls.now vertices.old edges.old journal.old answers.old image.old)
        (run_result result answers.new image.new) }
    ensures meets_demand3 { MeetsDemand3 (lent start.now rows.now calls.now vertices.old edges.old journal.old answers.old image.old)
        (run_result result answers.new image.new) }
{
    run(start, rows, calls, vertices, edges, journal, answers, image)
}

/// Up to eight stores in one run, six words a call, and one limit on the changes that all of them remember. What their
/// parts of the tables hold afterwards is left open.
#[unsafe(no_mangle)]
pub extern "C" fn futtockfig_run_stores(
    start: &[u32],
    rows: &[u64],
    calls: &[u32],
    vertices: &mut [u32],
    edges: &mut [u32],
    journal: &mut [u32],
    answers: &mut [u32],
    image: &mut [u32],
    stores: u32,
    limit: u32,
) -> RunResult
    ensures image_value { run_result result answers.new image.new
        ≡ run_in (several (lent start.now rows.now calls.now vertices.old edges.old journal.old answers.old image.old) stores limit) }
    ensures untouched_in { UntouchedIn
        (several (lent start.now rows.now calls.now vertices.old edges.old journal.old answers.old image.old) stores limit)
        (slice vertices.old vertices.new) (slice edges.old edges.new) (slice journal.old journal.new) }
    ensures behind_stays { BehindStays stores (slice vertices.old vertices.new) (slice edges.old edges.new) (slice journal.old journal.new) }
    ensures meets_demand1in { MeetsDemand1In
        (several (lent start.now rows.now calls.now vertices.old edges.old journal.old answers.old image.old) stores limit)
        (run_result result answers.new image.new) (slice vertices.old vertices.new) (slice edges.old edges.new)
        (slice journal.old journal.new) }
    ensures demand2in { Demand2In (several (lent start.now rows.now calls.now vertices.old edges.old journal.old answers.old image.old) stores limit)
        (run_result result answers.new image.new) }
    ensures meets_demand3in { MeetsDemand3In
        (several (lent start.now rows.now calls.now vertices.old edges.old journal.old answers.old image.old) stores limit)
        (run_result result answers.new image.new) }
{
    run_stores(
        start, rows, calls, vertices, edges, journal, answers, image, stores, limit,
    )
}

/// Where a part of an image lies, in words. No function that C calls can return a part itself.
#[repr(C)]
#[derive(Clone, Copy, Debug, PartialEq, Eq)]
pub struct Span {
    pub offset: usize,
    pub len: usize,
}

#[unsafe(no_mangle)]
pub extern "C" fn futtockfig_part(words: &[u32], part: u32) -> Span
    ensures { (result.offset ≡ part_start part words.now)
        × (result.len ≡ length (part_of part words.now)) }
{
    let offset = image::part_start(words, part);
    Span {
        offset,
        len: image::part(words, part).len(),
    }
}

/// The page of an image.
#[unsafe(no_mangle)]
pub extern "C" fn futtockfig_page(words: &[u32], page: &mut [u8]) -> Printed
    ensures { printed result page.new ≡ page_of words.now page.old }
{
    Printed::from(print(words, page))
}

/// Two images beside each other.
#[unsafe(no_mangle)]
pub extern "C" fn futtockfig_compare(first: &[u32], second: &[u32], tolerance: u32) -> Compared
    ensures { result ≡ comparison first.now second.now tolerance }
{
    Compared::from(compare(first, second, tolerance))
}

/// The calls that bring Vseq, Eseq, or the list of a vertex, into a wanted order.
#[unsafe(no_mangle)]
pub extern "C" fn futtockfig_arrange_vertices(
    words: &[u32],
    wanted: &[u32],
    list: &mut [u32],
) -> Arrangement
    ensures { outcome result list.new
        ≡ vertex_order words.now wanted.now list.old }
{
    Arrangement::from(arrange_vertices(words, wanted, list))
}

#[unsafe(no_mangle)]
pub extern "C" fn futtockfig_arrange_edges(
    words: &[u32],
    wanted: &[u32],
    list: &mut [u32],
) -> Arrangement
    ensures { outcome result list.new
        ≡ edge_order words.now wanted.now list.old }
{
    Arrangement::from(arrange_edges(words, wanted, list))
}

#[unsafe(no_mangle)]
pub extern "C" fn futtockfig_arrange_words(
    words: &[u32],
    vertex: u32,
    wanted: &[u32],
    list: &mut [u32],
) -> Arrangement
    ensures { outcome result list.new
        ≡ word_order words.now vertex wanted.now list.old }
{
    Arrangement::from(arrange_words(words, vertex, wanted, list))
}

/// The run, and a copy of the graph after every step.
#[unsafe(no_mangle)]
pub extern "C" fn futtockfig_record(
    start: &[u32],
    rows: &[u64],
    calls: &[u32],
    vertices: &mut [u32],
    edges: &mut [u32],
    journal: &mut [u32],
    answers: &mut [u32],
    image: &mut [u32],
    copies: &mut [u32],
) -> RunResult
    ensures copies_after { after_recording (run_result result answers.new image.new) copies.new
        ≡ recording (lent start.now rows.now calls.now vertices.old edges.old journal.old answers.old image.old) copies.old }
    ensures leaves_tables { LeavesTables
        (lent start.now rows.now calls.now vertices.old edges.old journal.old answers.old image.old) (length copies.old)
        (slice vertices.old vertices.new) (slice edges.old edges.new) (slice journal.old journal.new) }
    ensures records1 { Records1 (lent start.now rows.now calls.now vertices.old edges.old journal.old answers.old image.old)
        (run_result result answers.new image.new) (slice vertices.old vertices.new) (slice edges.old edges.new)
        (slice journal.old journal.new) }
    ensures records2 { Records2 (lent start.now rows.now calls.now vertices.old edges.old journal.old answers.old image.old)
        (run_result result answers.new image.new) }
    ensures meets_demand3 { MeetsDemand3 (lent start.now rows.now calls.now vertices.old edges.old journal.old answers.old image.old)
        (run_result result answers.new image.new) }
{
    record_run(
        start, rows, calls, vertices, edges, journal, answers, image, copies,
    )
}

/// The least list whose last call still gets its code. The end image's slice is only measured.
#[unsafe(no_mangle)]
pub extern "C" fn futtockfig_reduce(
    start: &[u32],
    rows: &[u64],
    calls: &[u32],
    vertices: &mut [u32],
    edges: &mut [u32],
    journal: &mut [u32],
    answers: &mut [u32],
    image: &[u32],
    list: &mut [u32],
) -> Reduction
    ensures list_after { after_reduction result list.new
        ≡ reduction_of (lent start.now rows.now calls.now vertices.old edges.old journal.old answers.old image.now) list.old }
    ensures leaves_all { LeavesAll result (slice vertices.old vertices.new) (slice edges.old edges.new)
        (slice journal.old journal.new) (slice answers.old answers.new) }
    ensures least { IsLeast (lent start.now rows.now calls.now vertices.old edges.old journal.old answers.old image.now) result list.new }
{
    reduce(
        start, rows, calls, vertices, edges, journal, answers, image, list,
    )
}
