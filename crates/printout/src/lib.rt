// The program chartpage from bytes to bytes: the line of an image read, its page written, or why there is none.
#![tactic(auto)]

ghost use Rattle.std.specs.Prelude.{◌≤◌, length};
ghost use Rattle.decimal.specs.Stored.{WrittenAt};
ghost use Rattle.printout.specs.Printout.{rows_or_code, printout};

use decimal::bytes;
use page::print;
use text::{read_image, write_refused};

// There is room for the rows of 4,000 edges.
fn print_words(words: &[u32], out: &mut [u8; 100000]) -> usize
    requires { length words.now ≤ 200000 }
    ensures { WrittenAt (rows_or_code words.now) result out.old out.new }
{
    match print(words, out) {
        Ok(count) => count,
        Err(none) => write_refused(none.code(), none.offset() as u32, out),
    }
}

/// Writes the whole output for the input to the front of out, and answers how many bytes it has.
pub fn print_image(input: &[u8], out: &mut [u8; 100000]) -> usize
    ensures { WrittenAt (printout input.now) result out.old out.new }
{
    let mut words = [0u32; 200000];
    match read_image(input, &mut words) {
        Some(count) => print_words(&words[..count], out),
        None => bytes(out, 0, b"unreadable\n"),
    }
}
