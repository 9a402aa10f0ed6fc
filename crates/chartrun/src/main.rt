// Reads calls from standard input, runs them on an empty graph, and writes the answers and the end image.
#![tactic(auto)]

use transcript::transcribe;
use whole_input::read_whole;

// The three programs have these lines each, which is no plainer as one: a function of theirs would take the answer as a
// closure and require that it may be called, and nothing above the run requires anything (tests/contracts); a trait for
// the answer would have an impl in each, as long as these lines.
// More than 60,000 bytes are read, so a longer input is seen to be too long. A write that fails is not told.
fn main(rt: HostRuntime) {
    let mut input = [0u8; 65536];
    let mut output = [0u8; 100000];
    let (Ok(read) | Err(read)) = read_whole(&mut rt.stdin(), &mut input);
    let written = transcribe(&input[..read], &mut output);
    if let Some(front) = output.get(..written) {
        let _ = rt.write_all(front);
    }
}
