// Whether stores hold an editor: standard input has stores one after the other, in the form that tests/stores/stores.py tells, and a
// line of standard output says of each 1 or 0. A read or a write that fails ends it with status 1 and the error on standard error.
#![tactic(auto)]

mod input;
mod words;

use input::Room;
use std::io;

fn main(rt: HostRuntime) -> io::Result<()> {
    let mut plens = [0u64; 128];
    let mut paths = [0u8; 8704];
    let mut tlens = [0u64; 128];
    let mut trees = [0u8; 39424];
    let mut order = [0u64; 128];
    let mut room = Room {
        plens: &mut plens,
        paths: &mut paths,
        tlens: &mut tlens,
        trees: &mut trees,
        order: &mut order,
    };
    input::run(&rt, &mut rt.stdin(), &mut room)
}
