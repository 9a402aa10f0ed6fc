// The line of an image: from its bytes back to the words.
ghost use Rattle.std.specs.Prelude.{◌≡◌};
ghost use Rattle.lists.specs.Lists.{overwritten};
ghost use Rattle.text.specs.Scan.{scan, is_value};
ghost use Rattle.text.specs.ImageLine.{framed, read_image, line_words, line_verdict, field_in};

use crate::number::Number;
use crate::reading::words;

// The bytes of a line: the word image and a newline at least.
const LEAST_BYTES: usize = 6;

const MOST_BYTES: usize = 400000;

// As many bytes, the word image in front and a newline at the end.
fn is_framed(bytes: &[u8]) -> bool
    ensures { result ≡ framed bytes.now }
{
    (LEAST_BYTES..=MOST_BYTES).contains(&bytes.len())
        && bytes.starts_with(b"image")
        && bytes[bytes.len() - 1] == b'\n'
}

// Whether the bytes are numbers with one space between.
fn are_numbers(bytes: &[u8]) -> bool
    ensures { result ≡ is_value (scan field_in Number.Empty bytes.now) }
{
    let mut number = Number::Empty;
    for &byte in bytes {
        number = number.after_in_line(byte);
    }
    number.is_value()
}

/// How many words the line of an image has, or None of another text. The words stand at the front of out, and behind
/// them what stood there; another text leaves out as it is. 400,000 bytes name no more words than there is room for.
pub fn read_image(bytes: &[u8], out: &mut [u32; 200000]) -> Option<usize>
    ensures verdict { result ≡ line_verdict (read_image bytes.now) }
    ensures words { out.new
        ≡ overwritten (line_words (read_image bytes.now)) out.old }
{
    if !is_framed(bytes) {
        return None;
    }
    let end = bytes.len() - 1;
    if end == 5 {
        return Some(0);
    }
    if bytes[5] != b' ' || !are_numbers(&bytes[6..end]) {
        return None;
    }
    Some(words(&bytes[6..], out))
}
