// Standard input of the programs, into bytes that are lent.
#![tactic(auto)]

ghost use Rattle.std.specs.Prelude.{◌<◌, ◌≤◌, length, take, IfOk};
ghost use Rattle.std.specs.Io.KnownBytes.{Consumes, IsAtEnd};
ghost use Rattle.whole_input.specs.Input.{count_of};

use std::io::Read;

/// Reads until the bytes are full, the input ends or a read fails. How many there are: Err if a read failed after them.
pub fn read_whole<R: Read>(reader: &mut R, bytes: &mut [u8]) -> Result<usize, usize>
    ensures in_bounds { count_of result ≤ length bytes.new }
    ensures in_order { Consumes (R.remaining reader.old) (R.remaining reader.new) (take (count_of result) bytes.new) }
    ensures whole { IfOk result (λ n. n < length bytes.new → IsAtEnd (R.remaining reader.new)) }
{
    let mut count = 0;
    // A read gives as many bytes as it likes: no `for` counts them.
    while count < bytes.len() {
        let Ok(n) = reader.read(&mut bytes[count..]) else {
            return Err(count);
        };
        if n == 0 {
            return Ok(count);
        }
        count += n;
    }
    Ok(count)
}
