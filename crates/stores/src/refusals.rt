// The refusals of a list of several stores: the first test in turn that it does not pass. Nothing is written.
// The lengths come one by one, as those of a run of one store do: C's eight slices.
ghost use Rattle.std.specs.Prelude.{◌≡◌, ◌≤◌, ◌<◌, ◌^◌, Err};
ghost use Rattle.graph.specs.Limits.{most_vertices, most_edges};
ghost use Rattle.image_check.specs.Checks.{bounds, bad_code};
ghost use Rattle.machine.specs.Run.{number_beside};
ghost use Rattle.machine.specs.StoreRun.{LentStores, starts_code, starts_offset, stores_refusal, stores_number};
ghost use Rattle.engine.specs.Refusals.{list_code, list_offset, code_if_refused, number_if_refused};
ghost use Rattle.stores.specs.Refusals.{number_at, lengths_in, LendsIn};

use crate::starts::first_length;
use engine::list_refusal::ListRefusal;
use engine::refusals::in_limits;
use image::layout::length;
use image_check::{BadImage, check};
use store_calls::serving::MOST_STORES;
use type_rows::are_good;

/// The refusal for what is bad in the start image that stands at a place: the offset is counted from the first word of
/// all start images.
fn of_image_at(at: usize, bad: BadImage) -> ListRefusal
    requires { at < 2 ^ 63 }
    ensures code { list_code result ≡ bad_code bad }
    ensures number { list_offset result ≡ number_at at (Err bad) }
{
    match bad {
        BadImage::Header => ListRefusal::BadStart,
        BadImage::Record(offset) => ListRefusal::BadRecord(at + offset as usize),
        BadImage::Incidence(offset) => ListRefusal::BadIncidence(at + offset as usize),
    }
}

/// What goes by lengths alone.
fn check_lengths(
    calls: usize,
    answers: usize,
    vertices: usize,
    edges: usize,
    journal: usize,
    stores: usize,
) -> Result<(), ListRefusal>
    ensures { (code_if_refused result ≡ lengths_in calls answers vertices edges journal stores)
        × (number_if_refused result ≡ 0) }
{
    if calls % 6 != 0 {
        return Err(ListRefusal::BadCalls);
    }
    if answers < 2 * (calls / 6) {
        return Err(ListRefusal::ShortAnswers);
    }
    if !(1..=MOST_STORES).contains(&stores)
        || !in_limits(
            vertices / stores / 8,
            edges / stores / 12,
            journal / stores / 12,
        )
    {
        return Err(ListRefusal::BadCapacity);
    }
    Ok(())
}

/// The first image that does not load; where all do, words left over.
fn check_starts(
    start: &[u32],
    vertices: u32,
    edges: u32,
    types: u32,
    stores: usize,
) -> Result<(), ListRefusal>
    requires { (vertices ≤ most_vertices) × (edges ≤ most_edges) }
    ensures code_value { code_if_refused result ≡ starts_code (bounds vertices edges types) stores start.now }
    ensures number_value { number_if_refused result ≡ number_beside (starts_code (bounds vertices edges types) stores start.now)
        (starts_offset (bounds vertices edges types) 0 stores start.now) }
{
    let mut at = 0;
    for _ in 0..stores {
        let n = first_length(&start[at..]);
        if let Err(bad) = check(&start[at..at + n], vertices, edges, types) {
            return Err(of_image_at(at, bad));
        }
        at += n;
    }
    if at < start.len() {
        return Err(ListRefusal::BadStart);
    }
    Ok(())
}

/// Whether a run of what is lent for so many stores is refused. The start is looked at only where its capacities are
/// within the limits.
pub fn refusal(
    start: &[u32],
    rows: &[u64],
    calls: usize,
    vertices: usize,
    edges: usize,
    journal: usize,
    answers: usize,
    image: usize,
    stores: usize,
) -> Result<(), ListRefusal>
    ensures { (l : LentStores)
        → LendsIn l start.now rows.now calls vertices edges journal answers image stores
        → (code_if_refused result ≡ stores_refusal l) × (number_if_refused result ≡ stores_number l) }
{
    check_lengths(calls, answers, vertices, edges, journal, stores)?;
    if !are_good(rows) {
        return Err(ListRefusal::BadRows);
    }
    let v = (vertices / stores / 8) as u32;
    let e = (edges / stores / 12) as u32;
    check_starts(start, v, e, rows.len() as u32, stores)?;
    if image / stores < length(v, e) {
        return Err(ListRefusal::ShortImage);
    }
    Ok(())
}
