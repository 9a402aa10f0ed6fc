// The programs chartrun and chartresume from bytes to bytes: the calls read, the list run from a start, the answers and
// the image written.
#![tactic(auto)]

ghost use Rattle.std.specs.Prelude.{◌≡◌, ◌%◌, ◌≤◌, length};
ghost use Rattle.decimal.specs.Stored.{WrittenAt};
ghost use Rattle.transcript.specs.Transcript.{response, transcript, resumption};

use engine::run::run;
use resume_text::read_input;
use text::Unreadable;

// The text of a run, on fixed room, as nothing here has a heap: its answers and its image; of a refused list its code and the number beside it.
// Capacities 200, 800, 1,000; types 0 to 4, with 2 and 3 below 1.
fn respond(start: &[u32], calls: &[u32], out: &mut [u8; 100000]) -> usize
    requires { (length calls.now % 5 ≡ 0) × (length calls.now ≤ 5000) × (length start.now ≤ 200000) }
    ensures { WrittenAt (response start.now calls.now) result out.old
        out.new }
{
    let rows = [0u64, 0, 2, 2, 0];
    let mut vertices = [0u32; 1600];
    let mut edges = [0u32; 9600];
    let mut journal = [0u32; 12000];
    let mut answers = [0u32; 2000];
    let mut image = [0u32; 7206];
    let ran = run(
        start,
        &rows,
        calls,
        &mut vertices,
        &mut edges,
        &mut journal,
        &mut answers,
        &mut image,
    );
    // A run answers in the words that C is given: a code, and two numbers in either case.
    if ran.code != 0 {
        return text::write_refused(ran.code, ran.done as u32, out);
    }
    text::write(&answers[..2 * ran.done], &image[..ran.words], out)
}

/// chartrun: writes the whole output for the input to the front of out, and answers how many bytes it has. The start is
/// the image of the graph with nothing in it.
pub fn transcribe(bytes: &[u8], out: &mut [u8; 100000]) -> usize
    ensures { WrittenAt (transcript bytes.now) result out.old out.new }
{
    let mut calls = [0u32; 5000];
    match text::read(bytes, &mut calls) {
        Ok(count) => respond(&[0, 0, 6, 6, 6, 6], &calls[..count], out),
        Err(Unreadable(line)) => text::write_unreadable(line, out),
    }
}

/// chartresume likewise: the start is the image of the input's first line.
pub fn resume(bytes: &[u8], out: &mut [u8; 100000]) -> usize
    ensures { WrittenAt (resumption bytes.now) result out.old out.new }
{
    let mut words = [0u32; 200000];
    let mut calls = [0u32; 5000];
    match read_input(bytes, &mut words, &mut calls) {
        Ok(lengths) => respond(&words[..lengths.image], &calls[..lengths.calls], out),
        Err(Unreadable(bad_line)) => text::write_unreadable(bad_line, out),
    }
}
