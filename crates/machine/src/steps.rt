// A step by its code, and a single step given with a case and a state in memory.
ghost use Rattle.std.specs.Prelude.{◌≡◌};
ghost use Rattle.cases.specs.Checks.{limits_of, step_fault};
ghost use Rattle.machine.specs.Rules.{broken, rule_of, next_of, start_of};
ghost use Rattle.machine.specs.Fit.{Fits};
ghost use Rattle.machine.specs.Judge.{ruling_no, ruling_blocker, stepped_of, step_of, started_of};
ghost use Rattle.machine.specs.Ptso.{ptso};

use crate::blocker::Blocker;
use crate::cells::{BLANK, State};
use crate::fitted::Fitted;
use crate::rule::Rule;
use crate::sizes::{ALL_REGISTERS, SLOTS};
use crate::work::Unweighed;
use crate::{fit, issue, moves};
use cases::case::{Case, Line, Program, Step};
use cases::checks;
use cases::operations::{ISSUE, MOVE};
use cases::sizes::{CODE, LOCATIONS, THREADS};

// What is said of a step: legal, a rule broken and the first entry in the way, or the input refused. Both are 01's numbers:
// `stepped_of` is over any `Model`, whose rule and fault are numbers; `order_of_stepping`, `unchecked_stepping` of
// demands say them too.
#[derive(Clone, Copy)]
pub enum Ruling {
    Allowed,
    Broken(u8, Blocker),
    Declined(u8),
}

#[derive(Clone, Copy)]
pub struct Stepped {
    pub ruling: Ruling,
    pub state: State,
}

// 103, the rule, or the refusal's number.
pub fn ruling_number(r: Ruling) -> u8
    ensures { result ≡ ruling_no r }
{
    match r {
        Ruling::Allowed => 103,
        Ruling::Broken(n, _) | Ruling::Declined(n) => n,
    }
}

// The first entry in the way, where one is named.
pub fn ruling_blocker(r: Ruling) -> Blocker
    ensures { result ≡ ruling_blocker r }
{
    match r {
        Ruling::Broken(_, b) => b,
        Ruling::Allowed | Ruling::Declined(_) => Blocker::NoEntry,
    }
}

// The first contents, nothing queued, waiting or issued.
#[tactic(auto, unfolding(crate::specs::Rules::start_of))]
pub fn start_of(p: Program) -> State
    ensures { result ≡ start_of p }
{
    let first = p.first;
    State {
        words: first,
        held: [0u32; SLOTS],
        marks: [0u8; SLOTS],
        lengths: [0u8; LOCATIONS],
        buffers: [BLANK; CODE],
        waiting: [0u8; THREADS],
        registers: [0u32; ALL_REGISTERS],
        issued: [0u8; THREADS],
    }
}

impl<'a> Fitted<'a> {
    // May a step be taken?
    #[tactic(auto, using(cases::proofs::ChoiceLaws::choices), unfolding(crate::specs::Rules::rule_of, crate::specs::Rules::rule_in))]
    pub(crate) fn rule(&self, k: Step) -> Result<(), Rule>
        requires { step_fault (limits_of self.now.p.now) k ≡ 0 }
        ensures { broken result ≡ rule_of self.now.p.now self.now.s.now k }
    {
        match k.code {
            ISSUE => self.issue_rule(k.thread),
            MOVE => self.move_rule(k.thread, k.position),
            _ => self.persist_rule(Line(k.location.0)),
        }
    }
}

// The state after a legal step, which was tested before.
#[tactic(auto, using(cases::proofs::ChoiceLaws::choices), unfolding(crate::specs::Rules::next_of))]
pub(crate) fn take_step(p: &Program, s: State, k: Step) -> State
    requires { Fits p.now s × (step_fault (limits_of p.now) k ≡ 0) × (rule_of p.now s k ≡ 0) }
    ensures { result ≡ next_of p.now s k }
{
    match k.code {
        ISSUE => issue::issue(p, s, k.thread),
        MOVE => moves::move_entry(p, s, k.thread, k.position),
        _ => moves::persist(s, Line(k.location.0)),
    }
}

// Where a case's runs start: 32 first.
#[tactic(auto, using(cases::proofs::ChoiceLaws::choices), unfolding(crate::specs::Judge::started_of, crate::specs::Judge::told))]
pub fn start(c: Case) -> Stepped
    ensures { result ≡ started_of c }
{
    if !cases::reads_back(c) {
        let none = cases::empty_case();
        return Stepped {
            ruling: Ruling::Declined(Unweighed::Unreadable.number()),
            state: start_of(none.program),
        };
    }
    Stepped {
        ruling: Ruling::Allowed,
        state: start_of(c.program),
    }
}

// A step in a state that fits: 5 and 8, then the rules; the state goes back unchanged where it is refused.
fn step_in(p: &Program, s: State, k: Step) -> Stepped
    requires { Fits p.now s }
    ensures { result ≡ stepped_of (ptso p.now) s k }
{
    if let Err(fault) = checks::check_step(p, k) {
        return Stepped {
            ruling: Ruling::Declined(fault.number()),
            state: s,
        };
    }
    let v = Fitted { p, s: &s };
    if let Err(broken) = v.rule(k) {
        return Stepped {
            ruling: Ruling::Broken(broken.number(), v.blocker_by(k, broken)),
            state: s,
        };
    }
    Stepped {
        ruling: Ruling::Allowed,
        state: take_step(p, s, k),
    }
}

// A single step with a case and a state in memory: 32, 33, then what is said of it there.
#[tactic(auto, using(cases::proofs::ChoiceLaws::choices), unfolding(crate::specs::Judge::step_of, crate::specs::Judge::told))]
pub fn step(c: Case, s: State, k: Step) -> Stepped
    ensures { result ≡ step_of c s k }
{
    if !cases::reads_back(c) {
        return Stepped {
            ruling: Ruling::Declined(Unweighed::Unreadable.number()),
            state: s,
        };
    }
    let p = &c.program;
    if fit::is_misfit(p, &s) {
        return Stepped {
            ruling: Ruling::Declined(Unweighed::Misfit.number()),
            state: s,
        };
    }
    step_in(p, s, k)
}
