// Every call of a list, each on its store; calls of one store in a row as one stretch.
ghost use Rattle.std.specs.Prelude.{◌≡◌, ◌+◌, ◌*◌, ◌/◌, ◌≤◌, ◌<◌, length};
ghost use Rattle.lists.specs.Choice.{within};
ghost use Rattle.store_calls.specs.Parts.{RestStays};
ghost use Rattle.store_calls.specs.Serving.{Serves, Served, slot_of, whole};

use crate::guard::answer;
use history_calls::Store;

/// As many stores as can be open.
pub const MOST_STORES: usize = 8;

/// Whether it is the number of one of so many stores.
fn is_store(number: u32, stores: usize) -> bool
    ensures { result ≡ within 1 stores number }
{
    (1..=stores).contains(&(number as usize))
}

/// The place of a store among them; the first where there is no such store. Not an Option, which is no plainer: `None`
/// would be a second arm that refuses the call and goes on as this one does.
fn slot(number: u32, stores: usize) -> usize
    requires { 1 ≤ stores }
    ensures value { result ≡ slot_of number stores }
    ensures upper_bound { result < stores }
{
    if is_store(number, stores) {
        number as usize - 1
    } else {
        0
    }
}

/// Answers each call by two words, code and number; so much room is left to all stores. Store s has the s-th part of
/// each table, of v, e and t words; the words behind the last part stay.
pub fn serve(
    first: [Store; MOST_STORES],
    vertices: &mut [u32],
    edges: &mut [u32],
    journal: &mut [u32],
    marks: &mut [[u32; marks::WORDS]; MOST_STORES],
    closed: &[u64; 64],
    types: u32,
    calls: &[u32],
    answers: &mut [u32],
    stores: usize,
    joint: u32,
    v: usize,
    e: usize,
    t: usize,
) -> [Store; MOST_STORES]
    requires serves { Serves first vertices.old edges.old journal.old marks.old closed.now types stores joint v e t }
    requires calls_in_bounds { 2 * (length calls.now / 6) ≤ length answers.old }
    ensures served { Served first result (whole vertices.old edges.old journal.old marks.old)
        (whole vertices.new edges.new journal.new marks.new) closed.now types calls.now answers.old answers.new stores joint v e t }
    ensures rest_stays { RestStays stores v vertices.old vertices.new
        × RestStays stores e edges.old edges.new
        × RestStays stores t journal.old journal.new }
{
    let n = calls.len() / 6;
    let capacity = (t / 12) as u32;
    let mut all = first;
    let mut room = joint;
    let mut k = 0;
    // Not a `for`: as many calls as one loop answered are passed over.
    while k < n {
        let number = calls[6 * k];
        let there = is_store(number, stores);
        let i = slot(number, stores);
        let x = all[i];
        let used = x.current.position.used;
        let granted = capacity.min(used + room);
        let done = answer(
            x,
            &mut vertices[i * v..i * v + v],
            &mut edges[i * e..i * e + e],
            &mut journal[i * t..i * t + t],
            &mut marks[i],
            closed,
            types,
            granted,
            &calls[6 * k..6 * n],
            &mut answers[2 * k..2 * n],
            there,
        );
        let y = done.store.same();
        let after = y.current.position.used;
        all[i] = y;
        room = room + used - after;
        k += done.calls;
    }
    all
}
