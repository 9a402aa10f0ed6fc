// Copies of the graph, one after every step: what is kept of a step, and what is loaded at a place.
#![tactic(auto)]

ghost use Rattle.std.specs.Prelude.{◌≡◌, ◌≢◌, true, ◌+◌, ◌*◌, ◌≤◌, ◌<◌, length};
ghost use Rattle.std.proofs.lemmas.List.Edits.{sets};
ghost use Rattle.lists.specs.Choice.{within};
ghost use Rattle.graph.specs.Graph.{Graph};
ghost use Rattle.graph_tables.specs.Tables.{state};
ghost use Rattle.graph_tables.specs.Holds.{Holds};
ghost use Rattle.image.specs.Image.{save as save_of, load as load_of};
ghost use Rattle.image_tables.specs.Words.{CanSave};
ghost use Rattle.commands.specs.Calls.{call_at, calls_of};
ghost use Rattle.commands.specs.Commands.{command_of};
ghost use Rattle.marks.specs.Marked.{mark_words};
ghost use Rattle.history_calls.specs.Outcomes.{Leads};
ghost use Rattle.copies.specs.Copies.{changes_in};
ghost use Rattle.copies.specs.Recording.{
  role_of,
  other_role,
  Led,
  takes,
  Takes,
  count_after,
  copies_after,
  used_after,
  numbers_after,
  copy_words,
  CanReload,
};

use commands::HistoryCall;
use commands::refusal::Refusal;
use graph_tables::Head;
use history_calls::Store;
use image_tables::{load, save};
use timeline::Current;

/// One place for the start and one for each change that a journal has room for.
pub const PLACES: usize = 20001;

/// Of each place of the timeline, the number of its copy, and how many rows of the journal lead to it.
#[derive(Drop)]
pub struct Places {
    pub numbers: [usize; PLACES],
    pub used: [u32; PLACES],
}

// Saves the graph to stretch `count`, counted from 0.
fn keep(head: Head, vertices: &[u32], edges: &[u32], copies: &mut [u32], size: usize, count: usize)
    requires { CanSave (state head vertices.now edges.now) size
        × (size * count + size ≤ length copies.old) }
    ensures { (g : Graph) → Holds (state head vertices.now edges.now) g
        → copies.new ≡ sets copies.old (size * count) (save_of g) }
{
    let at = size * count;
    save(head, vertices, edges, &mut copies[at..at + size]);
}

/// Loads copy k, counted from 1; 0 is the start.
pub fn reload(
    start: &[u32],
    copies: &[u32],
    size: usize,
    k: usize,
    vertices: &mut [u32],
    edges: &mut [u32],
) -> Head
    requires { CanReload start.now copies.now size k vertices.old edges.old }
    ensures { Holds (state result vertices.new edges.new)
        (load_of (copy_words start.now copies.now size k)) }
{
    if k == 0 {
        return load(start, vertices, edges);
    }
    let at = size * (k - 1);
    let total = copies[at + 5] as usize;
    load(&copies[at..at + total], vertices, edges)
}

/// What a call does to the copies: a move loads one, a change may make one, a commit gives that of the place to place 0.
#[derive(Clone, Copy, Debug, PartialEq, Eq)]
pub enum Role {
    Move(HistoryCall),
    Change,
    Commit,
    Other,
}

// Is it the kind of a change?
fn is_change(kind: u32) -> bool
    ensures { result ≡ within 1 16 kind }
{
    (1..=16).contains(&kind)
}

// The role of a call that is no change, by its kind and its first two words.
fn other_role(kind: u32, a: u32, b: u32) -> Role
    ensures { result ≡ other_role kind a b }
{
    match kind {
        19 => Role::Move(HistoryCall::Undo),
        20 => Role::Move(HistoryCall::Redo),
        21 => Role::Move(HistoryCall::GoTo(a)),
        22 => Role::Commit,
        57 => Role::Move(HistoryCall::GoToName(a, b)),
        _ => Role::Other,
    }
}

/// The role of a call, read off its words by the numbers of kinds: with a second caller of `commands::decode` the run is
/// slower (DECISIONS 124), since the decoder is compiled into the loop that alone calls it.
pub fn role_of(call: &[u32]) -> Role
    requires { length call.now ≡ 5 }
    ensures { result ≡ role_of (command_of (call_at call.now)) }
{
    let kind = call[0];
    if is_change(kind) {
        Role::Change
    } else {
        other_role(kind, call[1], call[2])
    }
}

/// The place to which kinds 19, 20, 21 and 57 lead. No other call leads anywhere.
///
/// # Errors
/// Those of `Store::way_of`.
pub fn leads_to(store: Store, marks: &[u32], call: HistoryCall) -> Result<u32, Refusal>
    requires { Leads call × (length marks.now ≡ mark_words)
        × (store.current.position.place ≤ store.current.position.steps) }
    ensures { Led store marks.now call result }
{
    let place = store.current.position.place;
    let way = store.way_of(marks, call)?;
    Ok(if way.back {
        place - way.steps
    } else {
        place + way.steps
    })
}

// A change whose number is not 0 is a step: its graph is kept, and the number of the copy stands at its place.
fn take_copy(
    number: u32,
    current: Current,
    vertices: &[u32],
    edges: &[u32],
    copies: &mut [u32],
    size: usize,
    places: &mut Places,
    count: usize,
) -> usize
    requires { number ≢ 0 → Takes current vertices.now edges.now size count (length copies.old) }
    ensures { (result ≡ count_after Role.Change number count)
        × (places.new.numbers
        ≡ numbers_after Role.Change number 0 current.position.place count places.old.numbers)
        × (places.new.used ≡ used_after Role.Change number current.position.place current.position.used
        places.old.used)
        × ((g : Graph) → Holds (state current.head vertices.now edges.now) g
        → copies.new ≡ copies_after Role.Change number size count g copies.old) }
{
    if number == 0 {
        return count;
    }
    keep(current.head, vertices, edges, copies, size, count);
    let p = current.position.place as usize;
    places.numbers[p] = count + 1;
    places.used[p] = current.position.used;
    count + 1
}

/// The copies, and their numbers by places, after a call that went from place p to the present one.
pub fn copies_after(
    role: Role,
    number: u32,
    p: u32,
    current: Current,
    vertices: &[u32],
    edges: &[u32],
    copies: &mut [u32],
    size: usize,
    places: &mut Places,
    count: usize,
) -> usize
    requires { (p < 20001) × (takes role number ≡ true
        → Takes current vertices.now edges.now size count (length copies.old)) }
    ensures { (result ≡ count_after role number count)
        × (places.new.numbers ≡ numbers_after role number p current.position.place count places.old.numbers)
        × (places.new.used ≡ used_after role number current.position.place current.position.used
        places.old.used)
        × ((g : Graph) → Holds (state current.head vertices.now edges.now) g
        → copies.new ≡ copies_after role number size count g copies.old) }
{
    match role {
        Role::Change => take_copy(
            number, current, vertices, edges, copies, size, places, count,
        ),
        Role::Commit => {
            places.numbers[0] = places.numbers[p as usize];
            count
        }
        _ => count,
    }
}

/// Calls of kinds 1 to 16, accepted or not.
pub fn changes_in(calls: &[u32]) -> usize
    ensures { result ≡ changes_in (calls_of calls.now) }
{
    let mut count = 0;
    for call in calls.chunks_exact(5) {
        if is_change(call[0]) {
            count += 1;
        }
    }
    count
}
