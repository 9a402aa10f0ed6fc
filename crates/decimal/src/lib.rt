// Texts in slices of bytes, for chartrun's text and for the page. The digits of a number are in specs/.
// Bytes and place travel as two: see text/writing.rt.
#![tactic(auto)]

ghost use Rattle.std.specs.Prelude.{◌-◌, length};
ghost use Rattle.decimal.specs.Stored.{Stored, fitting};

/// Writes a text at a place of out and returns the place behind it. Where there is no room for the whole text, nothing
/// is written and the place is returned.
pub fn bytes(out: &mut [u8], at: usize, word: &[u8]) -> usize
    ensures { Stored (fitting (length out.old - at) word.now) at out.old
        out.new result }
{
    if out.len() < at || out.len() - at < word.len() {
        return at;
    }
    let end = at + word.len();
    out[at..end].copy_from_slice(word);
    end
}
