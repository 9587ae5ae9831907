// The question: can a power cut leave a given memory, with given instructions issued?
ghost use Rattle.std.specs.Prelude.{◌≡◌, length};
ghost use Rattle.cases.specs.Ranges.{ProgramFits};
ghost use Rattle.machine.specs.Ptso.{ptso};
ghost use Rattle.search.specs.Question.{reaches, outcome_no, outcome_place, short, answer_for, shown_for};
ghost use Rattle.search.specs.Question.{question_of, shown_of};
ghost use Rattle.search.specs.Seek.{walked_outcome};
ghost use Rattle.search.specs.Held.{AskWithin};

use crate::listing::Listing;
use crate::walk::Walked;
use crate::{start, walk};
use cases::case::{Ask, Program};
use cases::reader;
use cases::sizes::STEP_SIZE;
use machine::{steps, work};

// Reached with the number of steps of the run that is shown; refused with the number and the offset. The definitions of
// specs/Question.antt, and theorems of other crates, are about these four; a refusal is a number there, as in `question_of`.
#[derive(Clone, Copy)]
pub enum Outcome {
    Reached(usize),
    Unreachable,
    Undecided,
    Refused(u8, usize),
}

// 100, 101, 102, or the refusal's number: what the C interface hands out.
pub fn outcome_number(o: Outcome) -> u8
    ensures { result ≡ outcome_no o }
{
    match o {
        Outcome::Reached(_) => 100,
        Outcome::Unreachable => 101,
        Outcome::Undecided => 102,
        Outcome::Refused(number, _) => number,
    }
}

// The number of steps, the offset, or 0.
pub fn outcome_place(o: Outcome) -> usize
    ensures { result ≡ outcome_place o }
{
    match o {
        Outcome::Reached(count) => count,
        Outcome::Unreachable => 0,
        Outcome::Undecided => 0,
        Outcome::Refused(_, offset) => offset,
    }
}

// What a walk's answer comes to.
pub(crate) fn told(w: Walked) -> Outcome
    ensures { result ≡ walked_outcome w }
{
    match w {
        Walked::Found(count) => Outcome::Reached(count),
        Walked::Finished(_) => Outcome::Unreachable,
        Walked::Stopped => Outcome::Undecided,
    }
}

// Is a run's buffer too short for a program? Then the answer is 31.
pub(crate) fn is_short(p: &Program, room: usize) -> bool
    requires { ProgramFits p.now }
    ensures { result ≡ short (ptso p.now) room }
{
    // the machine's functions take programs by value
    let s = steps::start_of(*p);
    room < STEP_SIZE * work::work_in(*p, s)
}

// The question of a program that the machine can run: 31, then the walk. Program and ask are lent apart, here and in
// distinct.rt, as the definitions take them: a struct of both would be made twice, for three private functions.
fn ask(p: &Program, a: &Ask, run: &mut [u8], budget: u32) -> Outcome
    requires { ProgramFits p.now × AskWithin p.now a.now }
    ensures { (result ≡ answer_for (ptso p.now) (reaches a.now) (length run.old) budget)
        × (run.new ≡ shown_for (ptso p.now) (reaches a.now) budget run.old) }
{
    if is_short(p, run.len()) {
        return Outcome::Refused(31, 0);
    }
    let c = Listing::of(p);
    let x = start::start_lanes(p, &c);
    told(walk::walk(&c, a, &x, budget, 0, run))
}

// The question of a case as bytes: reading first. Kind 6 records are read, and not looked at.
pub fn question(bytes: &[u8], run: &mut [u8], budget: u32) -> Outcome
    ensures { (result ≡ question_of bytes.now (length run.old) budget)
        × (run.new ≡ shown_of bytes.now budget run.old) }
{
    let reading = cases::read(bytes);
    let answer = reading.answer;
    let number = reader::number(answer);
    // by the number, as the definition has it: a match would have to show first that no refusal's number is 0
    if number != 0 {
        return Outcome::Refused(number, reader::offset(answer));
    }
    let c = &reading.case;
    ask(&c.program, &c.ask, run, budget)
}
