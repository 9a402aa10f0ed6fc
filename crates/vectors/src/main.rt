// Cases from standard input, run on the engine; what it did to standard output. tests/README.md describes the text.
// Here: the junk that lent slices are filled with; a line's first word and its numbers.
// Files below use what is private above them.
#![tactic(auto)]

mod running; // running.rt: a run, a page, a comparison or an order; running/cases.rt: the lines of the cases

use running::cases;
use whole_input::read_whole;

/// The first n elements, or none where there are fewer.
fn front<T>(list: &[T], n: usize) -> &[T] {
    list.get(..n).unwrap_or(&[])
}

/// What is left behind the first n elements; nothing where there are fewer.
fn rest<T>(list: &[T], n: usize) -> &[T] {
    list.get(n..).unwrap_or(&[])
}

/// The number at a place as a word, by its last 32 bits; past the end it is 0.
fn low_word(numbers: &[u64], i: usize) -> u32 {
    (numbers.get(i).copied().unwrap_or(0) % (1 << 32)) as u32
}

/// Writes the first n numbers as words, from a place of `to` on, as far as it reaches.
fn narrow(numbers: &[u64], n: usize, to: &mut [u32], at: usize) {
    for (i, word) in to.iter_mut().skip(at).take(n).enumerate() {
        *word = low_word(numbers, i);
    }
}

/// The junk word at i: below m.
fn junk(i: usize, m: u32) -> u32 {
    if m == 0 {
        return 0;
    }
    let x = (i % 65536) as u32;
    (x * 65521 + 7) % m
}

fn fill(words: &mut [u32], m: u32) {
    for (i, word) in words.iter_mut().enumerate() {
        *word = junk(i, m);
    }
}

/// Whether the words from a place on are the junk that was filled in.
fn is_untouched(words: &[u32], from: usize, m: u32) -> bool {
    words
        .iter()
        .enumerate()
        .skip(from)
        .all(|(i, &word)| word == junk(i, m))
}

/// The first word of a line: what stands before a space or a zero byte.
fn first_word(line: &[u8]) -> &[u8] {
    match line.iter().position(|&byte| byte == b' ' || byte == 0) {
        Some(end) => front(line, end),
        None => line,
    }
}

/// The next multiple of five.
fn fives(n: usize) -> usize {
    if n < 100000 { n.div_ceil(5) * 5 } else { n }
}

/// A number with a digit behind it; 0 where it had no room.
fn with_digit(number: u64, digit: u8) -> u64 {
    if number <= u64::MAX / 10 {
        (10 * number).wrapping_add(u64::from(digit))
    } else {
        0
    }
}

/// The numbers of a line: how many words they take so far, and the one under way.
#[derive(Clone, Copy, Debug, PartialEq, Eq)]
struct Scan {
    count: usize,
    number: Option<u64>,
}

impl Scan {
    /// Ends the number under way. One past the end is not written.
    fn close(&mut self, out: &mut [u64]) {
        let Some(number) = self.number.take() else {
            return;
        };
        if self.count < out.len() {
            out[self.count] = number;
        }
        self.count = self.count.wrapping_add(1);
    }

    /// A comma ends a call: its unused words are left as they are.
    fn push(&mut self, byte: u8, out: &mut [u64]) {
        if byte.is_ascii_digit() {
            self.number = Some(with_digit(self.number.unwrap_or(0), byte - b'0'));
            return;
        }
        self.close(out);
        if byte == b',' {
            self.count = fives(self.count);
        }
    }
}

/// Writes the numbers of the line one after the other, as far as out reaches, and answers how many words they take.
fn numbers(line: &[u8], out: &mut [u64]) -> usize {
    let mut scan = Scan {
        count: 0,
        number: None,
    };
    for &byte in line {
        scan.push(byte, out);
    }
    scan.close(out);
    scan.count
}

/// The first number of the line as a word.
fn first(line: &[u8]) -> u32 {
    let mut list = [0u64; 8];
    numbers(line, &mut list);
    low_word(&list, 0)
}

fn main(rt: HostRuntime) {
    let mut bytes = [0u8; 100000];
    let (Ok(count) | Err(count)) = read_whole(&mut rt.stdin(), &mut bytes);
    cases(&rt, &bytes[..count]);
}
