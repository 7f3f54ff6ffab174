// Judges heads at the limits of the rules, and heads that break one rule each, and writes a line for each. Standard input holds the
// cases, one after another: a line with a label and a length, then that many bytes of head. Both `stdin` and `stdout`, which the run is
// held to, are written by cases.py from the rules.
#![tactic(auto)]

mod cases;
mod keys;

use cases::Cases;
use std::io;
use std::io::Read;

// So many bytes of input are read at most.
const ROOM: u64 = 600000;

fn main(rt: HostRuntime) -> io::Result<()> {
    let mut input = Vec::new(rt.alloc());
    rt.stdin().take(ROOM).read_to_end(&mut input)?;
    let ring = keys::three();
    for case in Cases(&input) {
        case.judge(&rt, ring)?;
    }
    Ok(())
}
