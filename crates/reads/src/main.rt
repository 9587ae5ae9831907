// Reads a case from standard input, of any length, and says what it is: READ and its length, or REFUSED, the
// number and the offset. Where standard input cannot be read it says so on standard error, and nothing else.
#![tactic(auto)]

use cases::reader::Answer;
use std::io;

fn answer(rt: HostRuntime, bytes: &[u8]) -> io::Result<()> {
    match cases::read(bytes).answer {
        Answer::Whole(length) => println!(rt; "READ {length}"),
        Answer::Refused(number, offset) => println!(rt; "REFUSED {number} {offset}"),
    }
}

// Reading looks at no byte behind 2,664, so that a fixed buffer answers for an input of any length.
fn main(rt: HostRuntime) -> io::Result<()> {
    input::answered(rt, b"reads", |bytes| answer(rt, bytes))
}
