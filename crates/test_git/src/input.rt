// The standard input, line by line, through a buffer that has to hold a whole line.
ghost use Rattle.std.specs.Prelude.{◌≤◌, IfOk, IfSome, length};
ghost use Rattle.std.specs.Counts.{IsPrefixLen};

use std::io;
use std::io::Read;

// Reads on behind the bytes that the buffer holds, and gives how many it holds then. An error is
// that of a read: what the buffer holds behind is anything then.
fn fill<R: Read>(reader: &mut R, buf: &mut [u8], held: usize) -> io::Result<usize>
    requires { held ≤ length buf.old }
    ensures { IfOk result (λ n. IsPrefixLen n buf.new) }
{
    let n = streams::read_full(reader, &mut buf[held..])?;
    Ok(held + n)
}

// Reads on and replays the whole lines, and gives how many bytes are left over, at the front of the
// buffer. Where the input has ended or a line breaks the form, there is no more to do, and what is
// left over is a bad line. An error is that of the read or of a print, after which the buffer holds anything.
fn turn<R: Read>(
    rt: &impl Print,
    reader: &mut R,
    buf: &mut [u8],
    held: usize,
) -> io::Result<Option<usize>>
    requires { held ≤ length buf.old }
    ensures { IfOk result (λ more. IfSome more (λ n. n ≤ length buf.new)) }
{
    let n = fill(reader, buf, held)?;
    let used = crate::cases::replay(rt, &buf[..n])?;
    if n == held || buf[used..n].contains(&b'\n') {
        if used < n {
            println!(rt; "bad line")?;
        }
        return Ok(None);
    }
    buf.copy_within(used..n, 0);
    Ok(Some(n - used))
}

// Replays what a reader gives. Nothing says that it ends, so the turns are counted, to a number
// that no run reaches.
pub fn run<R: Read>(rt: &impl Print, reader: &mut R, buf: &mut [u8]) -> io::Result<()> {
    let mut held = 0;
    for _ in 0..u64::MAX {
        let Some(rest) = turn(rt, reader, buf, held)? else {
            break;
        };
        held = rest;
    }
    Ok(())
}
