// The refusals of a list: the first test in turn that it does not pass. Nothing is written. A run of several
// stores has these tests too, in an order of its own and by other lengths (list_refusal, stores_refusal): no plainer as one.
ghost use Rattle.std.specs.Prelude.{◌≡◌, ◌^◌, ◌<◌};
ghost use Rattle.lists.specs.Choice.{within};
ghost use Rattle.machine.specs.Run.{Lent, list_refusal, list_number};
ghost use Rattle.engine.specs.Refusals.{in_limits, lengths_code, code_if_refused, number_if_refused, Lends};

use crate::list_refusal::ListRefusal;
use graph::{MOST_CHANGES, MOST_EDGES, MOST_VERTICES};
use image::layout::length;
use image_check::check;
use type_rows::are_good;

/// Whether a number is one of 1 to the most.
pub fn at_most(most: u32, n: usize) -> bool
    ensures { result ≡ within 1 most n }
{
    (1..=most as usize).contains(&n)
}

/// Whether each capacity is one that a run may have.
pub fn in_limits(vertices: usize, edges: usize, changes: usize) -> bool
    ensures { result ≡ in_limits vertices edges changes }
{
    at_most(MOST_VERTICES, vertices) && at_most(MOST_EDGES, edges) && at_most(MOST_CHANGES, changes)
}

/// What goes by lengths alone.
fn check_lengths(
    calls: usize,
    answers: usize,
    vertices: usize,
    edges: usize,
    journal: usize,
) -> Result<(), ListRefusal>
    ensures { (code_if_refused result ≡ lengths_code calls answers vertices edges journal)
        × (number_if_refused result ≡ 0) }
{
    if calls % 5 != 0 {
        return Err(ListRefusal::BadCalls);
    }
    if answers < 2 * (calls / 5) {
        return Err(ListRefusal::ShortAnswers);
    }
    if !in_limits(vertices / 8, edges / 12, journal / 12) {
        return Err(ListRefusal::BadCapacity);
    }
    Ok(())
}

/// Whether a run of what is lent, of which only the start, the type rows and the lengths matter, is refused. The start is
/// looked at only where its capacities are within the limits.
pub fn refusal(
    start: &[u32],
    rows: &[u64],
    calls: usize,
    vertices: usize,
    edges: usize,
    journal: usize,
    answers: usize,
    image: usize,
) -> Result<(), ListRefusal>
    ensures told { (l : Lent)
        → Lends l start.now rows.now calls vertices edges journal answers image
        → (code_if_refused result ≡ list_refusal l) × (number_if_refused result ≡ list_number l) }
    ensures in_a_word { number_if_refused result < 2 ^ 32 }
{
    check_lengths(calls, answers, vertices, edges, journal)?;
    if !are_good(rows) {
        return Err(ListRefusal::BadRows);
    }
    let v = (vertices / 8) as u32;
    let e = (edges / 12) as u32;
    check(start, v, e, rows.len() as u32)?;
    if image < length(v, e) {
        return Err(ListRefusal::ShortImage);
    }
    Ok(())
}
