// A run, judged: step by step from the start, to the first that breaks a rule.
ghost use Rattle.std.specs.Prelude.{◌≡◌};
ghost use Rattle.cases.specs.Ranges.{Ranged};
ghost use Rattle.machine.specs.Judge.{verdict_no, verdict_place, verdict_blocker, stopped, judge_run};
ghost use Rattle.machine.specs.Judge.{judge_of, judge_bytes};

use crate::blocker::Blocker;
use crate::cells::State;
use crate::fitted::Fitted;
use crate::steps;
use crate::work::Unweighed;
use cases::case::Case;
use cases::reader::Answer;

// Legal with the number of steps; illegal with the rule, the index and the first entry in the way; refused with
// the number and the offset. Both are 01's numbers: `judge_illegal` of proofs/Promises.antt is over any rule's number, as
// `judge_from` is over any `Model`'s, and `stopped` hands on what `number_of` of a reading says.
#[derive(Clone, Copy)]
pub enum Verdict {
    Legal(usize),
    Illegal(u8, usize, Blocker),
    Refused(u8, usize),
}

#[derive(Clone, Copy)]
pub struct Judged {
    pub verdict: Verdict,
    pub state: State,
}

// 103, the rule, or the refusal's number.
pub fn verdict_number(v: Verdict) -> u8
    ensures { result ≡ verdict_no v }
{
    match v {
        Verdict::Legal(_) => 103,
        Verdict::Illegal(rule, _, _) => rule,
        Verdict::Refused(number, _) => number,
    }
}

// The number of steps, the index, or the offset.
pub fn verdict_place(v: Verdict) -> usize
    ensures { result ≡ verdict_place v }
{
    match v {
        Verdict::Legal(steps) => steps,
        Verdict::Illegal(_, index, _) => index,
        Verdict::Refused(_, offset) => offset,
    }
}

// The first entry in the way, where one is named.
pub fn verdict_blocker(v: Verdict) -> Blocker
    ensures { result ≡ verdict_blocker v }
{
    match v {
        Verdict::Illegal(_, _, b) => b,
        Verdict::Legal(_) | Verdict::Refused(_, _) => Blocker::NoEntry,
    }
}

// Where reading or 32 stops the judge, the empty case's start goes along.
#[tactic(auto, unfolding(crate::specs::Judge::stopped, crate::specs::Judge::judged))]
fn stop(number: u8, offset: usize) -> Judged
    ensures { result ≡ stopped number offset }
{
    let none = cases::empty_case();
    Judged {
        verdict: Verdict::Refused(number, offset),
        state: steps::start_of(none.program),
    }
}

// The run of a case that can be read.
fn judge_run(c: &Case) -> Judged
    requires { Ranged c.now }
    ensures { result ≡ judge_run c.now }
{
    let p = &c.program;
    let n = c.run.count as usize;
    let mut s = steps::start_of(c.program);
    for (i, k) in c.run.steps[..n].iter().enumerate() {
        let v = Fitted { p, s: &s };
        if let Err(broken) = v.rule(*k) {
            return Judged {
                verdict: Verdict::Illegal(broken.number(), i, v.blocker_by(*k, broken)),
                state: s,
            };
        }
        s = steps::take_step(p, s, *k);
    }
    Judged {
        verdict: Verdict::Legal(n),
        state: s,
    }
}

// The run of a case in memory: 32 first.
#[tactic(auto, using(cases::proofs::ChoiceLaws::choices), unfolding(crate::specs::Judge::judge_of))]
pub fn judge(c: Case) -> Judged
    ensures { result ≡ judge_of c }
{
    if !cases::reads_back(c) {
        return stop(Unweighed::Unreadable.number(), 0);
    }
    judge_run(&c)
}

// The run of a case as bytes: reading first.
#[tactic(auto, using(cases::proofs::ChoiceLaws::choices), unfolding(crate::specs::Judge::judge_bytes))]
pub fn judge_bytes(bytes: &[u8]) -> Judged
    ensures { result ≡ judge_bytes bytes.now }
{
    let reading = cases::read(bytes);
    match reading.answer {
        Answer::Whole(_) => judge_run(&reading.case),
        Answer::Refused(number, offset) => stop(number, offset),
    }
}
