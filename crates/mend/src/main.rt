// Mends a damaged tree: its bytes on standard input, the report and the mended tree in hex on standard output. Ids have 20 bytes, or 32 where the first argument
// says so. A read or a write that fails ends it with status 1 and the error on standard error; where it was a read, nothing is on standard output.
#![tactic(auto)]

use std::env::Env;
use std::io;

// How many bytes ids have.
fn width(rt: &impl Env) -> usize {
    let mut word = [0u8; 8];
    match rt.arg(1, &mut word) {
        Ok(n) if names::order::same_bytes(&word[..n], b"32") => 32,
        _ => 20,
    }
}

fn main(rt: HostRuntime) -> io::Result<()> {
    let mut input = [0u8; 262145];
    let n = streams::read_full(&mut rt.stdin(), &mut input)?;
    if 262144 < n {
        return rt.write_all(b"code=255\n");
    }
    let mut out = [0u8; 131072];
    match names_salvage::report::report(&input[..n], width(&rt), &mut out) {
        Some(m) => rt.write_all(names::part::front(&out, m)),
        None => Ok(()),
    }
}
