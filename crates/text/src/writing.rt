// From words to bytes. Each function writes a text at a place of out and returns the place behind it. A struct of the two
// would be no plainer: each clause is one equation of the bytes and both places, and would then have to say too that the
// struct keeps its bytes. `write!` would want a writer into lent bytes, whose text no clause of its own tells.
// Code and number of an answer, code and offset of a refusal come as the words that C is given them in.
ghost use Rattle.std.specs.Prelude.{◌+◌, ◌*◌, ◌≤◌, length};
ghost use Rattle.lists.specs.Lists.{concat_map};
ghost use Rattle.decimal.specs.Stored.{Stored, WrittenAt};
ghost use Rattle.decimal.specs.Decimal.{digits};
ghost use Rattle.text.specs.Writing.{spaced, line_of, answer_line, answer_lines, write_text, bounded_text};
ghost use Rattle.text.specs.Writing.{unreadable_text, refused_line};

use decimal::bytes;

// What the lent bytes have room for: 1,000 answers, and the image of 200 vertices and 800 edges.
const MOST_CODES: usize = 2000;

const MOST_IMAGE: usize = 7206;

fn digits(out: &mut [u8], at: usize, n: u32) -> usize
    requires { at + length (digits 10 n) ≤ length out.old }
    ensures { Stored (digits 10 n) at out.old out.new result }
{
    if n < 10 {
        out[at] = b'0' + n as u8;
        return at + 1;
    }
    let p = digits(out, at, n / 10);
    out[p] = b'0' + (n % 10) as u8;
    p + 1
}

fn spaced(out: &mut [u8], at: usize, n: u32) -> usize
    requires { at + length (spaced n) ≤ length out.old }
    ensures { Stored (spaced n) at out.old out.new result }
{
    out[at] = b' ';
    digits(out, at + 1, n)
}

fn numbers(out: &mut [u8], at: usize, words: &[u32]) -> usize
    requires { at + length (concat_map spaced words.now) ≤ length out.old }
    ensures { Stored (concat_map spaced words.now) at out.old out.new result }
{
    let mut p = at;
    for &n in words {
        p = spaced(out, p, n);
    }
    p
}

// A word and its numbers.
fn line(out: &mut [u8], at: usize, word: &[u8], ns: &[u32]) -> usize
    requires { at + length (line_of word.now ns.now) ≤ length out.old }
    ensures { Stored (line_of word.now ns.now) at out.old out.new result }
{
    let p = bytes(out, at, word);
    let q = numbers(out, p, ns);
    out[q] = b'\n';
    q + 1
}

fn answer(out: &mut [u8], at: usize, code: u32, number: u32) -> usize
    requires { at + length (answer_line code number) ≤ length out.old }
    ensures { Stored (answer_line code number) at out.old out.new result }
{
    if code == 0 {
        line(out, at, b"done", &[number])
    } else {
        line(out, at, b"refused", &[code])
    }
}

fn answers(out: &mut [u8], words: &[u32]) -> usize
    requires { length (answer_lines words.now) ≤ length out.old }
    ensures { Stored (answer_lines words.now) 0 out.old out.new result }
{
    let mut at = 0;
    for pair in words.chunks_exact(2) {
        at = answer(out, at, pair[0], pair[1]);
    }
    at
}

// The lines of the answers, code and number in turn, and the line of the image.
// A line of an answer has at most 19 bytes, and a number of the image with its space 11.
fn lines(codes: &[u32], image: &[u32], out: &mut [u8]) -> usize
    requires { 10 * length codes.now + 11 * length image.now + 6 ≤ length out.old }
    ensures { WrittenAt (write_text codes.now image.now) result out.old
        out.new }
{
    let p = answers(out, codes);
    line(out, p, b"image", image)
}

/// There is room for 1,000 answers and the image of 200 vertices and 800 edges; of more nothing is written.
pub fn write(codes: &[u32], image: &[u32], out: &mut [u8; 100000]) -> usize
    ensures { WrittenAt (bounded_text codes.now image.now) result out.old
        out.new }
{
    if codes.len() > MOST_CODES || image.len() > MOST_IMAGE {
        return 0;
    }
    lines(codes, image, out)
}

/// The line of unreadable input.
pub fn write_unreadable(n: u32, out: &mut [u8; 100000]) -> usize
    ensures { WrittenAt (unreadable_text n) result out.old out.new }
{
    line(out, 0, b"unreadable", &[n])
}

/// The line of an image that does not load.
pub fn write_refused(code: u32, offset: u32, out: &mut [u8; 100000]) -> usize
    ensures { WrittenAt (refused_line code offset) result out.old out.new }
{
    if code == 105 {
        line(out, 0, b"refused", &[code])
    } else {
        line(out, 0, b"refused", &[code, offset])
    }
}
