// Replays cases that Git has judged: each line of standard input is one, and a line of standard
// output says what crate names makes of it. docs/VECTORS.md has the form of both. A read or a write
// that fails ends it with status 1 and the error on standard error.
#![tactic(auto)]

mod again;
mod cases;
mod input;

use std::io;

fn main(rt: HostRuntime) -> io::Result<()> {
    let mut buf = [0u8; 65536];
    input::run(&rt, &mut rt.stdin(), &mut buf)
}
