// The work left, and the full length.
ghost use Rattle.std.specs.Prelude.{◌≡◌, ◌+◌, ◌*◌, ◌<◌, ◌≤◌, length, sum_by};
ghost use Rattle.cases.specs.Sizes.{most_threads, most_instructions, all_code};
ghost use Rattle.machine.specs.View.{buffer};
ghost use Rattle.machine.specs.Fit.{sum_to, Fits};
ghost use Rattle.machine.specs.Work.{unissued_weight, waiting_weight, code_weight, entry_weight};
ghost use Rattle.machine.specs.Work.{unissued_code, thread_work, work};
ghost use Rattle.machine.specs.Judge.{unweighed_no, weighed_no, weighed_work, work_of, full_of};

use crate::cells::{Entry, State, Waiting};
use crate::fitted::Fitted;
use crate::{fit, steps};
use cases::case::{Case, Instruction, Program, Thread};
use cases::operations::{COMPARE, EXCHANGE, FLUSH, FLUSH_OPT, SFENCE, STORE_REGISTER, STORE_WORD};
use cases::sizes::{INSTRUCTIONS, THREADS};

// Why the work is not told: the case is none that can be read, or the state doesn't fit it. Or another number: no function
// here answers it, and whoever has one can still ask for its number.
#[derive(Clone, Copy, PartialEq, Eq)]
pub enum Unweighed {
    Unreadable,
    Misfit,
    Other(u8),
}

impl Unweighed {
    // 01's number of it.
    pub(crate) fn number(self) -> u8
        ensures { result ≡ unweighed_no self }
    {
        match self {
            Unweighed::Unreadable => 32,
            Unweighed::Misfit => 33,
            Unweighed::Other(n) => n,
        }
    }
}

// The work left, or why it is not told.
pub type Weighed = Result<usize, Unweighed>;

// The refusal's number, 0 where there is none.
pub fn weighed_number(w: Weighed) -> u8
    ensures { result ≡ weighed_no w }
{
    match w {
        Ok(_) => 0,
        Err(u) => u.number(),
    }
}

// The work, 0 where it is refused.
pub fn weighed_work(w: Weighed) -> usize
    ensures { result ≡ weighed_work w }
{
    w.unwrap_or(0)
}

// The weight of an instruction that is not issued, by its operation.
#[tactic(auto, using(cases::proofs::ChoiceLaws::choices), unfolding(crate::specs::Work::unissued_weight))]
fn unissued_weight(op: u8) -> usize
    ensures { (result ≡ unissued_weight op) × (result ≤ 3) }
{
    match op {
        STORE_WORD | STORE_REGISTER | FLUSH_OPT => 3,
        EXCHANGE | FLUSH | SFENCE | COMPARE => 2,
        _ => 1,
    }
}

// The weight of an entry that waits.
#[tactic(auto, unfolding(crate::specs::Work::waiting_weight))]
fn waiting_weight(w: Waiting) -> usize
    ensures { (result ≡ waiting_weight w.entry) × (result ≤ 2) }
{
    match w.entry {
        Entry::Store(_) | Entry::FlushOpt(_) => 2,
        Entry::Flush(_) | Entry::Sfence => 1,
    }
}

impl<'a> Fitted<'a> {
    // The instructions of a thread that are not issued yet.
    fn unissued(&self, t: Thread) -> &'a [Instruction]
        requires { t.0 < most_threads }
        ensures is { result.now ≡ unissued_code self.now.p.now self.now.s.now t.0 }
        ensures few { length result.now ≤ most_instructions }
    {
        let p = self.p;
        let at = t.0 as usize;
        let base = at * INSTRUCTIONS;
        &p.code[base + (self.s.issued[at] as usize)..base + (p.counts[at] as usize)]
    }

    fn weigh_code(&self, t: Thread) -> usize
        requires { t.0 < most_threads }
        ensures is { result ≡ sum_by code_weight (unissued_code self.now.p.now self.now.s.now t.0) }
        ensures few { result ≤ 3 * most_instructions }
    {
        self.unissued(t)
            .iter()
            .map(|x| unissued_weight(x.operation))
            .sum()
    }

    fn weigh_buffer(&self, t: Thread) -> usize
        requires { t.0 < most_threads }
        ensures is { result ≡ sum_by entry_weight (buffer self.now.s.now t.0) }
        ensures few { result ≤ 2 * most_instructions }
    {
        self.buffer(t).iter().map(|w| waiting_weight(*w)).sum()
    }

    // The work left in a thread.
    fn thread_work(&self, t: Thread) -> usize
        requires { t.0 < most_threads }
        ensures { (result ≡ thread_work self.now.p.now self.now.s.now t.0) × (result ≤ 5 * most_instructions) }
    {
        self.weigh_code(t) + self.weigh_buffer(t)
    }

    // No chain, as for `all_unissued`.
    fn threads_work(&self) -> usize
        ensures { (result ≡ sum_to most_threads (thread_work self.now.p.now self.now.s.now)) × (result ≤ 5 * all_code) }
    {
        let mut total: usize = 0;
        for t in 0..THREADS {
            total += self.thread_work(Thread(t as u8));
        }
        total
    }
}

// The work left in a state that fits; the layer above asks for it where a walk begins.
pub fn work_in(p: Program, s: State) -> usize
    requires { Fits p s }
    ensures { result ≡ work p s }
{
    Fitted { p: &p, s: &s }.threads_work() + fit::total(&s.lengths)
}

// The work left of a case in a state in memory: 32, then 33.
#[tactic(auto, using(cases::proofs::ChoiceLaws::choices), unfolding(crate::specs::Judge::work_of))]
pub fn work_left(c: Case, s: State) -> Weighed
    ensures { result ≡ work_of c s }
{
    if !cases::reads_back(c) {
        return Err(Unweighed::Unreadable);
    }
    if fit::is_misfit(&c.program, &s) {
        return Err(Unweighed::Misfit);
    }
    Ok(work_in(c.program, s))
}

// The full length of a case's program: 32 first.
#[tactic(auto, using(cases::proofs::ChoiceLaws::choices), unfolding(crate::specs::Judge::full_of, crate::specs::Model::full_length))]
pub fn full_length(c: Case) -> Weighed
    ensures { result ≡ full_of c }
{
    if !cases::reads_back(c) {
        return Err(Unweighed::Unreadable);
    }
    let p = c.program;
    Ok(work_in(p, steps::start_of(p)))
}
