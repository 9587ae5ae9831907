// Frames of the machine: a run judged, a single step given with a state in memory, a case's start, or its question.
use crate::job::Job;
use crate::print::ROOM;
use crate::state::STATE_BYTES;
use crate::{asked, change, print, state, stream};
use cases::case::{Case, Step};
use machine::blocker::Blocker;
use machine::cells::State;
use machine::runs::Judged;
use machine::steps::Stepped;
use machine::work::Weighed;
use machine::{runs, steps, work};
use std::io;
use telling::InTheWay;

// The work, or r and the refusal's number.
fn print_weight(rt: HostRuntime, w: Weighed) -> io::Result<()> {
    match w {
        Ok(n) => print::number(rt, n),
        Err(_) => {
            print!(rt; "r")?;
            print::number(rt, work::weighed_number(w) as usize)
        }
    }
}

// What a frame's line says first: the number, its place, and the first entry in the way where one is named.
#[derive(Clone, Copy)]
struct Said {
    number: u8,
    place: usize,
    blocker: Blocker,
}

fn said_of_run(j: &Judged) -> Said {
    Said {
        number: runs::verdict_number(j.verdict),
        place: runs::verdict_place(j.verdict),
        blocker: runs::verdict_blocker(j.verdict),
    }
}

fn said_of_step(r: &Stepped) -> Said {
    Said {
        number: steps::ruling_number(r.ruling),
        place: 0,
        blocker: steps::ruling_blocker(r.ruling),
    }
}

// A function of its own: what filled the bytes is forgotten here, and that they are as many as their type says is not.
fn print_state(rt: HostRuntime, raw: &[u8; ROOM]) -> io::Result<()> {
    print::lent(rt, &raw[..STATE_BYTES])
}

// The number, its place, the work left in one state, the full length, the other state's bytes, and the place of
// the first entry in the way where one is named.
fn print_line(
    rt: HostRuntime,
    said: &Said,
    c: Case,
    weighed: State,
    out: &State,
) -> io::Result<()> {
    print::number(rt, said.number as usize)?;
    print::number(rt, said.place)?;
    print_weight(rt, machine::work_left(c, weighed))?;
    print_weight(rt, machine::full_length(c))?;
    let mut raw = [0u8; ROOM];
    state::to_bytes(&mut raw, out);
    print_state(rt, &raw)?;
    print!(rt; "{}", InTheWay(said.blocker))?;
    print::end(rt)
}

fn print_run(rt: HostRuntime, c: Case, j: Judged) -> io::Result<()> {
    print_line(rt, &said_of_run(&j), c, j.state, &j.state)
}

// Takes a single step in a state in memory; false where the stream ends before it.
fn take_step(rt: HostRuntime, c: Case) -> io::Result<bool> {
    let mut fields = [0u8; 4];
    if !stream::fills(rt, &mut fields)? {
        return Ok(false);
    }
    let mut raw = [0u8; ROOM];
    if !stream::fills(rt, &mut raw[..STATE_BYTES])? {
        return Ok(false);
    }
    let s = state::from_bytes(&raw);
    let r = machine::step(c, s, Step::from(fields));
    print_line(rt, &said_of_step(&r), c, s, &r.state)?;
    Ok(true)
}

fn judge_bytes(rt: HostRuntime, bytes: &[u8]) -> io::Result<()> {
    print_run(rt, cases::read(bytes).case, machine::judge_bytes(bytes))
}

fn judge_case(rt: HostRuntime, c: Case) -> io::Result<()> {
    print_run(rt, c, machine::judge(c))
}

fn start_case(rt: HostRuntime, c: Case) -> io::Result<()> {
    let r = machine::start(c);
    print_line(rt, &said_of_step(&r), c, r.state, &r.state)
}

// Answers for the bytes of a frame; false where the stream ends in the frame. A question's last two numbers are the room
// that it is lent and its budget, a case's in memory the field that is changed and its value. What a job needs stands in a
// function of its own: whatever stands here is made at each frame, a question's too.
pub(crate) fn answer(
    rt: HostRuntime,
    job: Job,
    input: &[u8],
    third: usize,
    fourth: u32,
) -> io::Result<bool> {
    let changed = || change::changed(cases::read(input).case, third, fourth);
    match job {
        Job::JudgeBytes => judge_bytes(rt, input)?,
        Job::JudgeCase => judge_case(rt, changed())?,
        Job::Start => start_case(rt, changed())?,
        Job::Step => return take_step(rt, changed()),
        Job::Question => return asked::answer(rt, input, third, fourth),
    }
    Ok(true)
}
