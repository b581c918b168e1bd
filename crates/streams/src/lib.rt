// Reading from what may give a few bytes at a time.
#![tactic(auto)]

ghost use Rattle.std.specs.Prelude.{◌<◌, IfOk, length, take};
ghost use Rattle.std.specs.Io.{ReadsAtMost};
ghost use Rattle.std.specs.Io.KnownBytes.{Consumes, IsAtEnd};

use std::io;
use std::io::Read;

// Reads until the buffer is full or the input ends, and gives how many bytes it put at the front. A read that fails ends it with that error.
pub fn read_full<R: Read>(reader: &mut R, buf: &mut [u8]) -> io::Result<usize>
    ensures bound { ReadsAtMost result buf.new }
    ensures bytes { IfOk result (λ n. Consumes (R.remaining reader.old) (R.remaining reader.new) (take n buf.new)) }
    ensures end { IfOk result (λ n. n < length buf.new → IsAtEnd (R.remaining reader.new)) }
{
    let mut held = 0;
    // Stays: a reader gives as many bytes as it likes, so the loop goes by what was given.
    while held < buf.len() {
        let n = reader.read(&mut buf[held..])?;
        if n == 0 {
            return Ok(held);
        }
        held += n;
    }
    Ok(held)
}
