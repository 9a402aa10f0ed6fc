// From bytes to the words of calls: one pass that checks, and one that writes.
ghost use Rattle.std.specs.Prelude.{◌≡◌, ◌+◌, ◌≤◌, length};
ghost use Rattle.std.proofs.lemmas.List.Edits.{sets};
ghost use Rattle.lists.specs.Lists.{overwritten};
ghost use Rattle.text.specs.Reading.{read_text, call_words, verdict_of};
ghost use Rattle.text.specs.Scan.{word_at, words_from};

use crate::line::Lines;
use crate::number::{Number, ends_field};

// What is read at most; there is room for as many calls.
const MOST_BYTES: usize = 60000;

const MOST_LINES: u32 = 1000;

/// No text of calls: the number that is printed after `unreadable`, and no enum of its three kinds, since the
/// definitions of specs/Reading and the laws on them speak of that number. It is 0 of more than 60,000 bytes, 1001 of more than
/// 1,000 lines, else that of the first bad line.
#[derive(Clone, Copy, Debug, PartialEq, Eq)]
pub struct Unreadable(pub u32);

// The number is written where the byte ends it.
fn word_at(calls: &mut [u32], at: usize, number: Number, byte: u8) -> usize
    requires { at + length (word_at number byte) ≤ length calls.old }
    ensures place { result ≡ at + length (word_at number byte) }
    ensures calls_after { calls.new ≡ sets calls.old at (word_at number byte) }
{
    if !ends_field(byte) {
        return at;
    }
    calls[at] = number.value();
    at + 1
}

/// The words of readable bytes.
pub(crate) fn words(bytes: &[u8], calls: &mut [u32]) -> usize
    requires { length (words_from Number.Empty bytes.now) ≤ length calls.old }
    ensures count { result ≡ length (words_from Number.Empty bytes.now) }
    ensures calls_after { calls.new ≡ overwritten (words_from Number.Empty bytes.now) calls.old }
{
    let mut number = Number::Empty;
    let mut count = 0;
    for &byte in bytes {
        count = word_at(calls, count, number, byte);
        number = number.after(byte);
    }
    count
}

/// The words of the calls stand at the front of calls, and behind them what stood there; unreadable bytes leave calls as
/// it is. There is room for 1,000 calls.
pub fn read(bytes: &[u8], calls: &mut [u32; 5000]) -> Result<usize, Unreadable>
    ensures verdict { result ≡ verdict_of (read_text bytes.now) }
    ensures calls_after { calls.new ≡ overwritten (call_words (read_text bytes.now)) calls.old }
{
    if bytes.len() > MOST_BYTES {
        return Err(Unreadable(0));
    }
    let lines = Lines::of(bytes);
    if lines.ended > MOST_LINES {
        return Err(Unreadable(MOST_LINES + 1));
    }
    if lines.bad != 0 {
        return Err(Unreadable(lines.bad));
    }
    Ok(words(bytes, calls))
}
