// Asks the question of a case from standard input over its distinct states, with 2 MiB of memory that its own stack
// holds: 2,730 states. What it prints, and where standard input cannot be read, is as of `question`.
#![tactic(auto)]

ghost use Rattle.std.specs.Prelude.{◌≡◌, length};

use std::io;
use telling::ROOM;

// How many distinct states are covered at most; the memory covers fewer.
const BUDGET: u32 = 1000000;

// 2 MiB, in words.
const WORDS: usize = 524288;

// A function of its own, so that a proof elsewhere knows its length without its words.
fn zeros() -> [u32; WORDS]
    ensures { 524288 ≡ length result }
{
    [0; WORDS]
}

fn answer(rt: HostRuntime, bytes: &[u8]) -> io::Result<()> {
    let mut run = [0u8; ROOM];
    let mut memory = zeros();
    let remembered = search::remember(bytes, &mut run, &mut memory, BUDGET);
    telling::tell(&rt, remembered.outcome, &run)
}

// Reading looks at no byte behind 2,664, so that a fixed buffer answers for an input of any length.
fn main(rt: HostRuntime) -> io::Result<()> {
    input::answered(rt, b"remember", |bytes| answer(rt, bytes))
}
