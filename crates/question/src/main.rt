// Asks the question of a case from standard input, of any length: REACHED and the number of steps, then the run
// that reaches, a step a line; UNREACHABLE; UNDECIDED; or REFUSED, the number and the offset. Where standard
// input cannot be read it says so on standard error, and nothing else.
#![tactic(auto)]

use std::io;
use telling::ROOM;

// How many runs the question looks at.
const BUDGET: u32 = 1000000;

fn answer(rt: HostRuntime, bytes: &[u8]) -> io::Result<()> {
    let mut run = [0u8; ROOM];
    let outcome = search::question(bytes, &mut run, BUDGET);
    telling::tell(&rt, outcome, &run)
}

// Reading looks at no byte behind 2,664, so that a fixed buffer answers for an input of any length.
fn main(rt: HostRuntime) -> io::Result<()> {
    input::answered(rt, b"question", |bytes| answer(rt, bytes))
}
