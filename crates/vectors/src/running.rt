// A run on arrays full of junk, a page on bytes or an order on words full of it, and what it left, to standard output;
// a comparison. A write that fails is not told.
mod cases;

use crate::{fill, front, is_untouched};
use arrangement::{Arrangement, arrange_edges, arrange_vertices, arrange_words};
pub use cases::cases;
use comparison::{Compared, compare};
use engine::run::{RunResult, run};
use page::{Printed, print};

fn write_bytes(rt: &impl Print, bytes: &[u8]) {
    let _ = rt.write_all(bytes);
}

/// A name and words.
fn write_named(rt: &impl Print, name: &str, words: &[u32]) {
    let _ = print!(rt; "{name}");
    for word in words {
        let _ = print!(rt; " {word}");
    }
    write_bytes(rt, b"\n");
}

fn write_part(rt: &impl Print, which: u32, words: &[u32]) {
    let _ = print!(rt; "part {which}");
    write_named(rt, ":", words);
}

/// Whether what nothing was to be written to is as it was.
fn write_kept(rt: &impl Print, is_kept: bool) {
    let text = if is_kept { "kept" } else { "CHANGED" };
    let _ = println!(rt; "{text}");
}

/// The first calls, five words each, with the two words of each answer.
fn write_answers(rt: &impl Print, calls: &[u32], answers: &[u32], done: usize) {
    for (call, answer) in calls
        .chunks_exact(5)
        .zip(answers.chunks_exact(2))
        .take(done)
    {
        let _ = print!(rt; "call");
        for word in call {
            let _ = print!(rt; " {word}");
        }
        write_named(rt, ":", answer);
    }
}

// The junk byte of every page.
const JUNK_BYTE: u8 = b'#';

/// Code and number, the rows, and whether the bytes behind them are as they were.
fn show_page(rt: &impl Print, words: &[u32], room: usize) {
    let mut page = [JUNK_BYTE; 2000];
    let room = room.min(page.len());
    let came = print(words, &mut page[..room]);
    let Printed { code, bytes } = Printed::from(came);
    let _ = println!(rt; "page {code} {bytes}");
    let rows = came.unwrap_or(0);
    write_bytes(rt, front(&page, rows));
    write_kept(rt, page.iter().skip(rows).all(|&byte| byte == JUNK_BYTE));
}

/// The code and the four counts.
fn show_comparison(rt: &impl Print, first: &[u32], second: &[u32], tolerance: u32) {
    let Compared {
        code,
        matched,
        agreeing,
        first,
        second,
    } = Compared::from(compare(first, second, tolerance));
    let _ = println!(rt; "compare {code} {matched} {agreeing} {first} {second}");
}

/// Code and number, the calls, and whether the words behind them are as they were. The order is told by the kind of its
/// calls.
fn show_order(
    rt: &impl Print,
    words: &[u32],
    kind: u32,
    vertex: u32,
    wanted: &[u32],
    room: usize,
    junk: u32,
) {
    let mut list = [0u32; 200];
    fill(&mut list, junk);
    let room = room.min(list.len());
    let lent = &mut list[..room];
    let came = match kind {
        12 => arrange_vertices(words, wanted, lent),
        14 => arrange_edges(words, wanted, lent),
        _ => arrange_words(words, vertex, wanted, lent),
    };
    let Arrangement { code, calls } = Arrangement::from(came);
    let _ = println!(rt; "arrange {code} {calls}");
    for call in list.chunks_exact(5).take(calls) {
        write_named(rt, "call", call);
    }
    write_kept(rt, is_untouched(&list, calls.saturating_mul(5), junk));
}

/// The lengths in words of what is lent.
#[derive(Clone, Copy, Debug, PartialEq, Eq)]
pub struct Lengths {
    pub vertices: usize,
    pub edges: usize,
    pub journal: usize,
    pub answers: usize,
    pub image: usize,
}

/// What is lent to a run beside its start, its types and its calls.
#[derive(Drop)]
struct Lent<'l> {
    vertices: &'l mut [u32],
    edges: &'l mut [u32],
    journal: &'l mut [u32],
    answers: &'l mut [u32],
    image: &'l mut [u32],
}

impl<'l> Lent<'l> {
    fn fill(&mut self, junk: u32) {
        fill(self.vertices, junk);
        fill(self.edges, junk);
        fill(self.journal, junk);
        fill(self.answers, junk);
        fill(self.image, junk);
    }

    /// A run on the front of each.
    fn run(&mut self, start: &[u32], rows: &[u64], calls: &[u32], lengths: Lengths) -> RunResult {
        let v = lengths.vertices.min(self.vertices.len());
        let e = lengths.edges.min(self.edges.len());
        let j = lengths.journal.min(self.journal.len());
        let a = lengths.answers.min(self.answers.len());
        let i = lengths.image.min(self.image.len());
        run(
            start,
            rows,
            calls,
            &mut self.vertices[..v],
            &mut self.edges[..e],
            &mut self.journal[..j],
            &mut self.answers[..a],
            &mut self.image[..i],
        )
    }

    /// Whether a list that was refused left every word.
    fn is_kept(&self, junk: u32) -> bool {
        is_untouched(self.vertices, 0, junk)
            && is_untouched(self.edges, 0, junk)
            && is_untouched(self.journal, 0, junk)
            && is_untouched(self.answers, 0, junk)
            && is_untouched(self.image, 0, junk)
    }

    /// What the run left.
    fn report(&self, rt: &impl Print, ran: RunResult, calls: &[u32], junk: u32) {
        let RunResult { code, done, words } = ran;
        let _ = println!(rt; "result {code} {done} {words}");
        if code != 0 {
            write_kept(rt, self.is_kept(junk));
            return;
        }
        write_answers(rt, calls, self.answers, done);
        write_named(rt, "image", front(self.image, words));
        write_kept(
            rt,
            is_untouched(self.answers, done.saturating_mul(2), junk)
                && is_untouched(self.image, words, junk),
        );
    }
}

/// Every lent slice full of junk, the run, what it left: the words of the end image.
/// There is room for 1,001 vertices, 4,001 edges and 20,001 changes, so that each limit has a list on either side.
fn run_lent(
    rt: &impl Print,
    start: &[u32],
    rows: &[u64],
    calls: &[u32],
    image: &mut [u32],
    lengths: Lengths,
    junk: u32,
) -> usize {
    let mut vertices = [0u32; 8008];
    let mut edges = [0u32; 48012];
    let mut journal = [0u32; 240012];
    let mut answers = [0u32; 800];
    let mut lent = Lent {
        vertices: &mut vertices,
        edges: &mut edges,
        journal: &mut journal,
        answers: &mut answers,
        image,
    };
    lent.fill(junk);
    let ran = lent.run(start, rows, calls, lengths);
    lent.report(rt, ran, calls, junk);
    ran.words
}
