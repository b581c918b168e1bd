// What is written for an input.
ghost use Rattle.std.specs.Prelude.{OnOk};
ghost use Rattle.std.specs.Io.KnownBytes.{Appends};
ghost use Rattle.small_run.specs.Lesson.{output};

use std::io;
use std::io::Write;

// Writes what there is to be written for an input.
pub fn answer<W: Write>(input: &[u8], writer: &mut W) -> io::Result<()>
    ensures { OnOk result (Appends (W.contents writer.old) (W.contents writer.new) (output input.now)) }
{
    let mut out = [0u8; 303104];
    match small_run::run::run(input, &mut out) {
        Some(n) => writer.write_all(names::part::front(&out, n)),
        None => unreachable!(),
    }
}
