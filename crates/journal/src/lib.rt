// The journal's rows: twelve words each, of which ten are an edit, one is the cost of the edit's step, and one, in a
// step's first row, the bench that made it.
// A caller has room for the row, or rows that the run wrote. It hands the journal and the number of a row on as two
// parameters: it asks one thing of a row, and a row as a type of its own would be made for that one call.
#![tactic(auto)]

ghost use Rattle.std.specs.Prelude.{◌≡◌, [], ◌∷◌, ◌+◌, ◌*◌, ◌≤◌, length, set};
ghost use Rattle.graph.specs.Edits.{inverse};
ghost use Rattle.journal.specs.Rows.{edit_of, turned, edit_at, store_from, row_at, step_at, bench_at, signed};

use graph::{Edit, Reading};

pub mod kinds; // which edit a row is
pub mod room; // the room for the next row

// The edit that ten words are, or what undoes it: one choice by the kind for both.
#[inline(always)]
#[tactic(auto, unfolding(crate::specs::Rows::edit_of))]
fn decode(words: &[u32], back: bool) -> Edit
    requires { 10 ≤ length words.now }
    ensures { result ≡ turned back (edit_at words.now 0) }
{
    match (words[0], back) {
        (kinds::INSERT_VERTEX, false) | (kinds::REMOVE_VERTEX, true) => {
            Edit::InsertVertex(words[1], words[2], words[3], words[4])
        }
        (kinds::REMOVE_VERTEX, false) | (kinds::INSERT_VERTEX, true) => {
            Edit::RemoveVertex(words[1], words[2], words[3], words[4])
        }
        (kinds::INSERT_EDGE, false) | (kinds::REMOVE_EDGE, true) => {
            let reading = Reading::from_words(words[5], words[6]);
            Edit::InsertEdge(
                words[1], words[2], words[3], words[4], reading, words[7], words[8], words[9],
            )
        }
        (kinds::REMOVE_EDGE, false) | (kinds::INSERT_EDGE, true) => {
            let reading = Reading::from_words(words[5], words[6]);
            Edit::RemoveEdge(
                words[1], words[2], words[3], words[4], reading, words[7], words[8], words[9],
            )
        }
        (kinds::SET_VERTEX, false) => Edit::SetVertex(
            words[1], words[2], words[3], words[4], words[5],
        ),
        (kinds::SET_VERTEX, true) => Edit::SetVertex(
            words[1], words[4], words[5], words[2], words[3],
        ),
        (kinds::SET_EDGE, false) => {
            let old = Reading::from_words(words[3], words[4]);
            let new = Reading::from_words(words[6], words[7]);
            Edit::SetEdge(words[1], words[2], old, words[5], new)
        }
        (kinds::SET_EDGE, true) => {
            let new = Reading::from_words(words[3], words[4]);
            let old = Reading::from_words(words[6], words[7]);
            Edit::SetEdge(words[1], words[5], old, words[2], new)
        }
        (kinds::MOVE_VERTEX, false) => Edit::MoveVertex(words[1], words[2], words[3]),
        (kinds::MOVE_VERTEX, true) => Edit::MoveVertex(words[1], words[3], words[2]),
        (kinds::MOVE_EDGE, false) => Edit::MoveEdge(words[1], words[2], words[3]),
        (kinds::MOVE_EDGE, true) => Edit::MoveEdge(words[1], words[3], words[2]),
        (_, false) => Edit::MoveWord(words[1], words[2], words[3], words[4], words[5]),
        (_, true) => Edit::MoveWord(words[1], words[4], words[5], words[2], words[3]),
    }
}

/// The edit of a row, or what undoes it.
#[inline(always)]
pub fn row_at(journal: &[u32], row: u32, back: bool) -> Edit
    requires { 12 * row + 12 ≤ length journal.now }
    ensures { result ≡ turned back (row_at journal.now row) }
{
    let start = 12 * row as usize;
    decode(&journal[start..start + 10], back)
}

/// The cost of the step that a row is of.
#[inline(always)]
#[tactic(auto, unfolding(crate::specs::Rows::step_at))]
pub fn cost_at(journal: &[u32], row: u32) -> u32
    requires { 12 * row + 12 ≤ length journal.now }
    ensures { result ≡ (step_at journal.now row).cost }
{
    journal[12 * row as usize + 10]
}

/// The bench of the step that begins with a row.
#[inline(always)]
#[tactic(auto, unfolding(crate::specs::Rows::bench_at))]
pub fn bench_at(journal: &[u32], row: u32) -> u32
    requires { 12 * row + 12 ≤ length journal.now }
    ensures { result ≡ bench_at journal.now row }
{
    journal[12 * row as usize + 11]
}

/// The step that begins with a row was made by this bench.
#[inline(always)]
#[tactic(auto, unfolding(crate::specs::Rows::signed))]
pub fn put_bench(journal: &mut [u32], row: u32, bench: u32)
    requires { 12 * row + 12 ≤ length journal.old }
    ensures { journal.new ≡ signed row bench journal.old }
{
    journal[12 * row as usize + 11] = bench;
}

/// Ten words and the cost of their step as one row: the writer of every row. Which words an edit is, `row_words` says.
#[inline(always)]
#[tactic(auto, using(crate::proofs::RowLaws::store_more))]
pub fn put_row(journal: &mut [u32], row: u32, cost: u32, words: [u32; 10])
    requires { 12 * row + 12 ≤ length journal.old }
    ensures { journal.new ≡ set (store_from (12 * row) words journal.old) (12 * row + 10) cost }
{
    let start = 12 * row as usize;
    // Word by word: with copy_from_slice the ten words go through memory, and their places are compared first.
    for (i, &word) in words.iter().enumerate() {
        journal[start + i] = word;
    }
    journal[start + 10] = cost;
}
