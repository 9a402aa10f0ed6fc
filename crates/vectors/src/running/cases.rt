// The lines of the cases: those that say what the next run has, and those that run it.
ghost use Rattle.std.specs.Prelude.{◌≡◌};
ghost use Rattle.lists.specs.Lists.{count};

use crate::running::{
    Lengths, run_lent, show_comparison, show_order, show_page, write_bytes, write_part,
};
use crate::{first, first_word, fives, front, narrow, numbers, rest};
use image::part;

// A line has no more numbers than this.
const MOST_NUMBERS: usize = 400;

/// Writes the numbers of a line as words, and answers how many there are.
fn words_of(line: &[u8], words: &mut [u32]) -> usize {
    let mut list = [0u64; MOST_NUMBERS];
    let count = numbers(line, &mut list);
    narrow(&list, count, words, 0);
    count
}

/// What the lines so far say, in lent words, as there is no heap. Of start, rows and calls so many words are in use, and
/// of the last end image.
#[derive(Drop)]
struct Setting<'a> {
    lengths: Lengths,
    junk: u32,
    start: &'a mut [u32],
    start_count: usize,
    rows: &'a mut [u64],
    row_count: usize,
    calls: &'a mut [u32],
    call_count: usize,
    image_count: usize,
}

impl<'a> Setting<'a> {
    fn start(&self) -> &[u32] {
        front(self.start, self.start_count)
    }

    fn rows(&self) -> &[u64] {
        front(self.rows, self.row_count)
    }

    fn calls(&self) -> &[u32] {
        front(self.calls, self.call_count)
    }

    /// The lengths in words of vertices, edges and journal.
    fn set_tables(&mut self, line: &[u8]) {
        let mut list = [0u64; 8];
        numbers(line, &mut list);
        self.lengths = Lengths {
            vertices: list[0] as usize,
            edges: list[1] as usize,
            journal: list[2] as usize,
            ..self.lengths
        };
    }

    /// The lengths in words of answers and image.
    fn set_lent(&mut self, line: &[u8]) {
        let mut list = [0u64; 8];
        numbers(line, &mut list);
        self.lengths = Lengths {
            answers: list[0] as usize,
            image: list[1] as usize,
            ..self.lengths
        };
    }

    fn set_start(&mut self, line: &[u8]) {
        self.start_count = words_of(line, self.start);
    }

    /// The start image becomes the last end image.
    fn start_from(&mut self, image: &[u32]) {
        let copied = self.image_count.min(image.len()).min(self.start.len());
        self.start[..copied].copy_from_slice(&image[..copied]);
        self.start_count = self.image_count;
    }

    /// The first numbers of a list behind the calls.
    fn append(&mut self, list: &[u64], count: usize) {
        narrow(list, count, self.calls, self.call_count);
        self.call_count = self.call_count.saturating_add(count);
    }

    /// The numbers of the line behind the calls, as they are.
    fn append_words(&mut self, line: &[u8]) {
        let mut list = [0u64; MOST_NUMBERS];
        let count = numbers(line, &mut list);
        self.append(&list, count);
    }

    /// The calls of the line behind the calls.
    fn append_calls(&mut self, line: &[u8]) {
        let mut list = [0u64; MOST_NUMBERS];
        let count = numbers(line, &mut list);
        self.append(&list, fives(count));
    }

    /// The start words beside those of the line, whose first number is the tolerance.
    fn compare(&self, rt: &impl Print, line: &[u8]) {
        let mut words = [0u32; MOST_NUMBERS];
        let count = words_of(line, &mut words);
        show_comparison(rt, self.start(), rest(front(&words, count), 1), words[0]);
    }

    /// An order of the start words; kind, vertex, words lent for the calls, wanted words.
    fn arrange(&self, rt: &impl Print, line: &[u8]) {
        let mut words = [0u32; MOST_NUMBERS];
        let count = words_of(line, &mut words);
        show_order(
            rt,
            self.start(),
            words[0],
            words[1],
            rest(front(&words, count), 3),
            words[2] as usize,
            self.junk,
        );
    }

    /// A run of the calls so far: the words of its end image.
    fn run(&self, rt: &impl Print, image: &mut [u32]) -> usize {
        run_lent(
            rt,
            self.start(),
            self.rows(),
            self.calls(),
            image,
            self.lengths,
            self.junk,
        )
    }

    /// The calls so far and those of the line.
    fn run_with(&mut self, rt: &impl Print, line: &[u8], image: &mut [u32]) {
        self.append_calls(line);
        self.image_count = self.run(rt, image);
        self.call_count = 0;
    }

    /// A line that is none of these is written as it is.
    fn line(&mut self, rt: &impl Print, line: &[u8], image: &mut [u32]) {
        match first_word(line) {
            b"call" => self.append_calls(line),
            b"words" => self.append_words(line),
            b"start" => self.set_start(line),
            b"last" => self.start_from(image),
            b"rows" => self.row_count = numbers(line, self.rows),
            b"part" => {
                let which = first(line);
                write_part(rt, which, part(self.start(), which));
            }
            b"page" => show_page(rt, self.start(), first(line) as usize),
            b"compare" => self.compare(rt, line),
            b"arrange" => self.arrange(rt, line),
            b"tables" => self.set_tables(line),
            b"lent" => self.set_lent(line),
            b"junk" => self.junk = first(line),
            b"run" => self.run_with(rt, line, image),
            _ => {
                write_bytes(rt, line);
                write_bytes(rt, b"\n");
            }
        }
    }
}

/// Each line in turn, which a newline ends: how many there were.
fn lines(rt: &impl Print, setting: &mut Setting<'_>, bytes: &[u8], image: &mut [u32]) -> usize
    ensures { result ≡ count 10 bytes.now }
{
    let mut count = 0;
    let mut from = 0;
    for (i, &byte) in bytes.iter().enumerate() {
        if byte == b'\n' {
            setting.line(rt, &bytes[from..i], image);
            from = i + 1;
            count += 1;
        }
    }
    count
}

/// Each line in turn: how many there were.
pub fn cases(rt: &impl Print, bytes: &[u8]) -> usize
    ensures { result ≡ count 10 bytes.now }
{
    let mut start = [0u32; 400];
    let mut rows = [0u64; 80];
    let mut calls = [0u32; 2000];
    let mut image = [0u32; 36018];
    let mut setting = Setting {
        lengths: Lengths {
            vertices: 0,
            edges: 0,
            journal: 0,
            answers: 0,
            image: 0,
        },
        junk: u32::MAX,
        start: &mut start,
        start_count: 0,
        rows: &mut rows,
        row_count: 0,
        calls: &mut calls,
        call_count: 0,
        image_count: 0,
    };
    lines(rt, &mut setting, bytes, &mut image)
}
