// chartresume's input: the line of an image and the lines of calls behind it, from bytes to words.
#![tactic(auto)]

ghost use Rattle.std.specs.Prelude.{◌≡◌, ◌≤◌, length};
ghost use Rattle.lists.specs.Lists.{overwritten};
ghost use Rattle.text.specs.Reading.{read_text, call_words};
ghost use Rattle.text.specs.ImageLine.{read_image, line_words};
ghost use Rattle.resume_text.specs.Input.{first_length, first_line, calls_verdict};
ghost use Rattle.resume_text.specs.Input.{calls_in, input_verdict, read_input};

use text::{Unreadable, read, read_image};

/// How many words the image and the calls of an input have.
#[derive(Clone, Copy, Debug, PartialEq, Eq)]
pub struct Lengths {
    pub image: usize,
    pub calls: usize,
}

// How many bytes the first line has, its newline counted; all where there is none.
fn first_length(bytes: &[u8]) -> usize
    ensures value { result ≡ first_length bytes.now }
    ensures in_bounds { result ≤ length bytes.now }
{
    match bytes.iter().position(|&byte| byte == b'\n') {
        Some(newline) => newline + 1,
        None => bytes.len(),
    }
}

// The calls behind the line of an image. A bad line is counted from that line, which is 1.
fn read_behind(bytes: &[u8], calls: &mut [u32; 5000]) -> Result<usize, Unreadable>
    ensures verdict { result ≡ calls_verdict (read_text bytes.now) }
    ensures calls_after { calls.new
        ≡ overwritten (call_words (read_text bytes.now)) calls.old }
{
    match read(bytes, calls) {
        Err(Unreadable(line)) if line != 0 => Err(Unreadable(line + 1)),
        verdict => verdict,
    }
}

/// The words of the image stand at the front of words and those of the calls at the front of calls; behind them is what
/// stood there. Where the first line is no image's, both are left as they are; where a line behind it is bad, calls is.
pub fn read_input(
    bytes: &[u8],
    words: &mut [u32; 200000],
    calls: &mut [u32; 5000],
) -> Result<Lengths, Unreadable>
    ensures verdict { result ≡ input_verdict (read_input bytes.now) }
    ensures words_after { words.new
        ≡ overwritten (line_words (read_image (first_line bytes.now))) words.old }
    ensures calls_after { calls.new ≡ overwritten (calls_in bytes.now) calls.old }
{
    let end = first_length(bytes);
    let image = read_image(&bytes[..end], words).ok_or(Unreadable(1))?;
    let calls = read_behind(&bytes[end..], calls)?;
    Ok(Lengths { image, calls })
}
