// The small program: edits from records on standard input, and the trees of a write on standard output. Where a read failed, nothing is on standard output, and
// nothing more after a write that failed; in both cases it ends with status 1 and a line on standard error, which is empty otherwise.
#![tactic(auto)]

mod answer;

use std::process::ExitCode;

// Says on standard error what went wrong, as far as that can be written.
fn failed(rt: &impl Eprint, message: &str) -> ExitCode {
    let _ = rt.eprintln(message);
    ExitCode::FAILURE
}

fn main(rt: HostRuntime) -> ExitCode {
    let mut space = [0u8; 65537];
    let Ok(len) = streams::read_full(&mut rt.stdin(), &mut space) else {
        return failed(&rt, "small: standard input cannot be read");
    };
    match answer::answer(&space[..len], &mut rt.stdout()) {
        Ok(()) => ExitCode::SUCCESS,
        Err(_) => failed(&rt, "small: standard output cannot be written"),
    }
}
