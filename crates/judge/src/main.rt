// Judges the run of a case from standard input, of any length: LEGAL and the number of steps, then a line
// `location word` for each location of the program; ILLEGAL, the index, the rule and, where one is named, the
// place of the first entry in the way; or REFUSED, the number and the offset. Where standard input cannot be read
// it says so on standard error, and nothing else.
#![tactic(auto)]

use machine::cells::State;
use machine::runs::Verdict;
use std::io;
use telling::InTheWay;

// What the persistent words of a program's locations hold.
fn say_words(rt: HostRuntime, s: &State, locations: u8) -> io::Result<()> {
    for (l, word) in s.words.iter().take(locations as usize).enumerate() {
        println!(rt; "{l} {word}")?;
    }
    Ok(())
}

fn answer(rt: HostRuntime, bytes: &[u8]) -> io::Result<()> {
    let judged = machine::judge_bytes(bytes);
    match judged.verdict {
        Verdict::Legal(steps) => {
            println!(rt; "LEGAL {steps}")?;
            let case = cases::read(bytes).case;
            say_words(rt, &judged.state, case.program.locations)
        }
        Verdict::Illegal(rule, index, blocker) => {
            println!(rt; "ILLEGAL {index} {rule}{}", InTheWay(blocker))
        }
        Verdict::Refused(number, offset) => println!(rt; "REFUSED {number} {offset}"),
    }
}

// Reading looks at no byte behind 2,664, so that a fixed buffer answers for an input of any length.
fn main(rt: HostRuntime) -> io::Result<()> {
    input::answered(rt, b"judge", |bytes| answer(rt, bytes))
}
