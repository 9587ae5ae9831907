// What the programs that ask print of an answer, a line each: REACHED and the number of steps, then the run that
// reaches, a step a line; UNREACHABLE; UNDECIDED; or REFUSED, the number and the offset. And how a step and the
// place of an entry are written.
#![tactic(auto)]

ghost use Rattle.std.specs.Prelude.{Some};
ghost use Rattle.telling.specs.Text.{step_text, place_text};

use cases::case::{Line, Step, Thread};
use cases::operations::{ISSUE, MOVE, PERSIST};
use cases::sizes::{STEP_SIZE, STEPS};
use machine::blocker::Blocker;
use search::ask::Outcome;
use std::io::Print;
use std::{fmt, io};

// Room for the longest run.
pub const ROOM: usize = STEP_SIZE * STEPS;

// A step: I0 issues in thread 0, M0.0 moves the entry at position 0 of thread 0's buffer, P1 persists the oldest
// entry of line 1.
#[derive(Clone, Copy)]
pub struct Taken(pub Step);

impl fmt::Display for Taken {
    ghost output = { λ x. Some (step_text x.0) };

    fn fmt<W: fmt::Write>(&self, f: &mut fmt::Formatter<W>) -> fmt::Result {
        let k = &self.0;
        // no match: in its last arm no proof is told which codes the others took
        if k.code == ISSUE {
            return write!(f, "I{}", k.thread.0);
        }
        if k.code == MOVE {
            return write!(f, "M{}.{}", k.thread.0, k.position);
        }
        if k.code == PERSIST {
            return write!(f, "P{}", k.location.0);
        }
        Ok(())
    }
}

// The place of the first entry in the way, behind a blank: ` B0.2` or ` Q1.0`, and nothing where none is named.
#[derive(Clone, Copy)]
pub struct InTheWay(pub Blocker);

impl fmt::Display for InTheWay {
    ghost output = { λ x. Some (place_text x.0) };

    fn fmt<W: fmt::Write>(&self, f: &mut fmt::Formatter<W>) -> fmt::Result {
        match self.0 {
            Blocker::InBuffer(Thread(t), i) => write!(f, " B{t}.{i}"),
            Blocker::InQueue(Line(q), i) => write!(f, " Q{q}.{i}"),
            Blocker::NoEntry => Ok(()),
        }
    }
}

// The first steps of a run of records, no more than there are: the count is the answer's, and the buffer may be longer.
fn say_run<P: Print>(to: &P, run: &[u8], count: usize) -> io::Result<()> {
    for r in run.as_chunks::<STEP_SIZE>().0.iter().take(count) {
        println!(to; "{}", Taken(Step::from([r[4], r[5], r[6], r[7]])))?;
    }
    Ok(())
}

// An answer, and the run that stands in the buffer that was lent for it.
pub fn tell<P: Print>(to: &P, outcome: Outcome, run: &[u8]) -> io::Result<()> {
    match outcome {
        Outcome::Reached(count) => {
            println!(to; "REACHED {count}")?;
            say_run(to, run, count)
        }
        Outcome::Unreachable => println!(to; "UNREACHABLE"),
        Outcome::Undecided => println!(to; "UNDECIDED"),
        Outcome::Refused(number, offset) => println!(to; "REFUSED {number} {offset}"),
    }
}
