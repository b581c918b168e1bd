// Published values of SHA-1 and SHA-256, and ids that Git gave: each line of standard input is a case, and a line of standard
// output says what we make of it. A read or a write that fails ends it with status 1 and the error on standard error.
#![tactic(auto)]

mod cases;
mod often;

use std::io;

fn main(rt: HostRuntime) -> io::Result<()> {
    let mut input = [0u8; 262144];
    let n = streams::read_full(&mut rt.stdin(), &mut input)?;
    let used = cases::replay(&rt, &input[..n])?;
    if used < n {
        rt.write_all(b"bad line\n")?;
    }
    Ok(())
}
