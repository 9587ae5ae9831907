// Issue: which rule a thread's next instruction breaks, and what it does.
ghost use Rattle.std.specs.Prelude.{◌≡◌, ◌+◌, ◌<◌};
ghost use Rattle.cases.specs.Sizes.{most_threads, most_instructions, most_registers};
ghost use Rattle.cases.specs.Checks.{instruction_at};
ghost use Rattle.machine.specs.View.{line_of, buffer_len, issued_of};
ghost use Rattle.machine.specs.Parts.{parts_of};
ghost use Rattle.machine.specs.Rules.{broken, is_barrier, barrier_rule, operation_rule};
ghost use Rattle.machine.specs.Rules.{issue_rule, entry_of, loaded, fetched, exchanged, compared, performed};
ghost use Rattle.machine.specs.Rules.{issue_of, await};
ghost use Rattle.machine.specs.Fit.{Issuable};

use crate::cells::{Entry, State, Waiting};
use crate::fitted::Fitted;
use crate::rule::Rule;
use crate::{change, look};
use cases::case::{Instruction, Program, Thread, Write};
use cases::operations::{
    COMPARE, EXCHANGE, FLUSH, FLUSH_OPT, LOAD, MFENCE, STORE_REGISTER, STORE_WORD,
};
use cases::sizes::{INSTRUCTIONS, REGISTERS};

// Does an operation need what went before it to be done? Exchange, compare and mfence do. An operation is its record's
// number, here and below: `issue_fits` and specs/Rules.antt choose by it, and docs/DECISIONS.md says why it is no enum.
#[tactic(auto, using(cases::proofs::ChoiceLaws::choices), unfolding(crate::specs::Rules::is_barrier))]
fn is_barrier(op: u8) -> bool
    ensures { result ≡ is_barrier op }
{
    matches!(op, EXCHANGE | COMPARE | MFENCE)
}

impl<'a> Fitted<'a> {
    #[tactic(auto, using(cases::proofs::ChoiceLaws::choices), unfolding(crate::specs::Rules::barrier_rule))]
    fn barrier_rule(&self, t: Thread) -> Result<(), Rule>
        requires { t.0 < most_threads }
        ensures { broken result ≡ barrier_rule (parts_of self.now.s.now) t.0 }
    {
        if 0 < self.s.waiting[t.0 as usize] {
            return Err(Rule::BufferNotEmpty);
        }
        if self.is_marked(t) {
            return Err(Rule::MarkerQueued);
        }
        Ok(())
    }

    #[tactic(auto, using(cases::proofs::ChoiceLaws::choices), unfolding(crate::specs::Rules::operation_rule))]
    fn operation_rule(&self, op: u8, t: Thread) -> Result<(), Rule>
        requires { t.0 < most_threads }
        ensures { broken result ≡ operation_rule op (parts_of self.now.s.now) t.0 }
    {
        if !is_barrier(op) {
            return Ok(());
        }
        self.barrier_rule(t)
    }

    // May a thread's next instruction be issued?
    #[tactic(auto, using(cases::proofs::ChoiceLaws::choices), unfolding(crate::specs::Rules::issue_rule))]
    pub(crate) fn issue_rule(&self, t: Thread) -> Result<(), Rule>
        requires { t.0 < most_threads }
        ensures { broken result ≡ issue_rule self.now.p.now (parts_of self.now.s.now) t.0 }
    {
        let at = t.0 as usize;
        let n = self.s.issued[at];
        if self.p.counts[at] <= n {
            return Err(Rule::NothingToIssue);
        }
        let x = self.p.code[at * INSTRUCTIONS + (n as usize)];
        self.operation_rule(x.operation, t)
    }
}

// The entry that a store, flush, flush-opt or sfence leaves in the buffer; a store's word is fixed now.
#[tactic(auto, using(cases::proofs::ChoiceLaws::choices), unfolding(crate::specs::Rules::entry_of))]
fn entry_of(s: &State, t: Thread, x: Instruction) -> Entry
    requires { (t.0 < most_threads) × (x.register.0 < most_registers) }
    ensures { result ≡ entry_of s.now.registers t.0 x }
{
    let l = x.location;
    match x.operation {
        STORE_WORD => Entry::Store(Write {
            location: l,
            word: x.word,
        }),
        STORE_REGISTER => Entry::Store(Write {
            location: l,
            word: s.registers[(t.0 as usize) * REGISTERS + (x.register.0 as usize)],
        }),
        FLUSH => Entry::Flush(l),
        FLUSH_OPT => Entry::FlushOpt(l),
        _ => Entry::Sfence,
    }
}

// What changes a state takes it by value, as document 01 says; so what it needs is a record, `Issuable`, and no ghost
// field. The register takes the newest store of the own buffer, else the newest write in the line's queue, else the
// persistent word.
#[tactic(auto, unfolding(crate::specs::Rules::loaded, crate::specs::View::with_register, crate::specs::Look::load_of, crate::specs::Look::queued_word))]
fn load(p: &Program, s: State, t: Thread, x: Instruction) -> State
    requires { Issuable p.now s t.0 x }
    ensures { result ≡ loaded p.now s t.0 x }
{
    let mut u = s;
    let l = x.location;
    let word = u.words[l.0 as usize];
    let queued = look::newest_write(&u, look::line_of(p, l), l, word);
    let found = look::newest_store(&u, t, l, queued);
    u.registers[(t.0 as usize) * REGISTERS + (x.register.0 as usize)] = found;
    u
}

// The register takes the newest write in the line's queue, else the persistent word: `load` without its buffer.
#[tactic(auto, unfolding(crate::specs::Rules::fetched, crate::specs::View::with_register, crate::specs::Look::queued_word))]
fn fetch(p: &Program, s: State, t: Thread, x: Instruction) -> State
    requires { Issuable p.now s t.0 x }
    ensures { result ≡ fetched p.now s t.0 x }
{
    let mut u = s;
    let l = x.location;
    let word = u.words[l.0 as usize];
    let old = look::newest_write(&u, look::line_of(p, l), l, word);
    u.registers[(t.0 as usize) * REGISTERS + (x.register.0 as usize)] = old;
    u
}

// The register takes the old word; the instruction's goes to the queue's end.
#[tactic(auto, unfolding(crate::specs::Rules::exchanged, crate::specs::Rules::fetched, crate::specs::View::with_register))]
fn exchange(p: &Program, s: State, t: Thread, x: Instruction) -> State
    requires { Issuable p.now s t.0 x }
    ensures { result ≡ exchanged p.now s t.0 x }
{
    let l = x.location;
    change::enqueue(fetch(p, s, t, x), look::line_of(p, l), x.word, l.0)
}

// Where the word read is the register's, an exchange; else the register takes it, and nothing is written.
#[tactic(auto, unfolding(crate::specs::Rules::fetched, crate::specs::View::with_register))]
fn compare(p: &Program, s: State, t: Thread, x: Instruction) -> State
    requires { Issuable p.now s t.0 x }
    ensures { result ≡ compared p.now s t.0 x }
{
    let l = x.location;
    let at = (t.0 as usize) * REGISTERS + (x.register.0 as usize);
    let before = s.registers[at];
    let u = fetch(p, s, t, x);
    if u.registers[at] == before {
        return change::enqueue(u, look::line_of(p, l), x.word, l.0);
    }
    u
}

// The instruction's entry joins the end of the thread's buffer.
#[tactic(auto, using(crate::proofs::change::ChangeLaws::await_is))]
fn join_buffer(s: State, t: Thread, x: Instruction) -> State
    requires { (t.0 < most_threads) × (x.register.0 < most_registers)
        × (buffer_len s t.0 < most_instructions) }
    ensures { result ≡ await s t.0 (entry_of s.registers t.0 x) }
{
    let mut u = s;
    let at = t.0 as usize;
    let e = entry_of(&u, t, x);
    let n = u.waiting[at];
    u.buffers[at * INSTRUCTIONS + (n as usize)] = Waiting { entry: e };
    u.waiting[at] = n + 1;
    u
}

// What an instruction does as it is issued; those that wait are told apart in `entry_of`.
#[tactic(auto, using(cases::proofs::ChoiceLaws::choices), unfolding(crate::specs::Rules::performed))]
fn perform(p: &Program, s: State, t: Thread, x: Instruction) -> State
    requires { Issuable p.now s t.0 x }
    ensures { result ≡ performed p.now s t.0 x }
{
    match x.operation {
        LOAD => load(p, s, t, x),
        EXCHANGE => exchange(p, s, t, x),
        COMPARE => compare(p, s, t, x),
        MFENCE => s,
        _ => join_buffer(s, t, x),
    }
}

// A thread's next instruction issued, where it breaks no rule.
#[tactic(auto, unfolding(crate::specs::Rules::issue_of, crate::specs::View::with_issued))]
pub(crate) fn issue(p: &Program, s: State, t: Thread) -> State
    requires { (issued_of s t.0 < most_instructions)
        × Issuable p.now s t.0 (instruction_at p.now t.0 (issued_of s t.0)) }
    ensures { result ≡ issue_of p.now s t.0 }
{
    let mut u = s;
    let at = t.0 as usize;
    let n = u.issued[at];
    let x = p.code[at * INSTRUCTIONS + (n as usize)];
    u.issued[at] = n + 1;
    perform(p, u, t, x)
}
