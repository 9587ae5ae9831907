// Move and persist: which rule they break, and what they do.
ghost use Rattle.std.specs.Prelude.{◌≡◌, ◌<◌, ◌≤◌};
ghost use Rattle.cases.specs.Sizes.{most_threads, most_instructions, most_locations};
ghost use Rattle.machine.specs.Sizes.{room};
ghost use Rattle.machine.specs.View.{queue_len, buffer, buffer_len};
ghost use Rattle.machine.specs.Parts.{parts_of};
ghost use Rattle.machine.specs.Rules.{effect_rule, effect_of, pass_rule, entry_at, move_rule, move_of};
ghost use Rattle.machine.specs.Rules.{broken, persist_rule, persist_of};
ghost use Rattle.cases.specs.Ranges.{ProgramFits};
ghost use Rattle.machine.specs.Fit.{Named, Roomy};

use crate::cells::{BLANK, Entry, State};
use crate::fitted::Fitted;
use crate::rule::Rule;
use crate::sizes::{MARKER, ROOM};
use crate::{change, look};
use cases::case::{Line, Program, Thread};
use cases::sizes::{INSTRUCTIONS, LOCATIONS};

impl<'a> Fitted<'a> {
    // May an entry take effect?
    #[tactic(auto, using(cases::proofs::ChoiceLaws::choices), unfolding(crate::specs::Rules::effect_rule))]
    fn effect_rule(&self, t: Thread, e: Entry) -> Result<(), Rule>
        requires { (t.0 < most_threads) × Named most_locations e }
        ensures { broken result ≡ effect_rule self.now.p.now (parts_of self.now.s.now) t.0 e }
    {
        match e {
            Entry::Flush(l) => {
                let q = look::line_of(self.p, l);
                if 0 < self.s.lengths[q.0 as usize] {
                    return Err(Rule::LineNotEmpty);
                }
            }
            Entry::Sfence => {
                if self.is_marked(t) {
                    return Err(Rule::MarkerBeforeSfence);
                }
            }
            Entry::Store(_) | Entry::FlushOpt(_) => {}
        }
        Ok(())
    }

    // May an entry go before the others?
    #[tactic(auto, using(cases::proofs::ChoiceLaws::choices), unfolding(crate::specs::Rules::pass_rule))]
    fn pass_rule(&self, t: Thread, i: u8, e: Entry) -> Result<(), Rule>
        requires { (t.0 < most_threads) × (i ≤ buffer_len self.now.s.now t.0) }
        ensures { broken result ≡ pass_rule self.now.p.now (buffer self.now.s.now t.0) i e }
    {
        let Entry::FlushOpt(l) = e else {
            return Err(Rule::OnlyFlushOpt);
        };
        if self.first_bar(t, i, look::line_of(self.p, l)) < i {
            return Err(Rule::HeldBack);
        }
        Ok(())
    }

    // May the entry at a position be moved?
    pub(crate) fn move_rule(&self, t: Thread, i: u8) -> Result<(), Rule>
        requires { t.0 < most_threads }
        ensures { broken result ≡ move_rule self.now.p.now (parts_of self.now.s.now) t.0 i }
    {
        let Some(w) = self.buffer(t).get(i as usize) else {
            return Err(Rule::NothingThere);
        };
        if i == 0 {
            return self.effect_rule(t, w.entry);
        }
        self.pass_rule(t, i, w.entry)
    }

    // May the oldest entry of a line's queue be persisted?
    #[tactic(auto, using(cases::proofs::ChoiceLaws::choices), unfolding(crate::specs::Rules::persist_rule))]
    pub(crate) fn persist_rule(&self, q: Line) -> Result<(), Rule>
        requires { q.0 < most_locations }
        ensures { broken result ≡ persist_rule (parts_of self.now.s.now) q.0 }
    {
        if self.s.lengths[q.0 as usize] == 0 {
            return Err(Rule::NothingQueued);
        }
        Ok(())
    }
}

// What an entry that has left its buffer does.
#[tactic(auto, unfolding(crate::specs::Rules::effect_of))]
fn take_effect(p: &Program, s: State, t: Thread, e: Entry) -> State
    requires { ProgramFits p.now × (t.0 < most_threads) × Named most_locations e × Roomy s }
    ensures { result ≡ effect_of p.now s t.0 e }
{
    match e {
        Entry::Store(w) => change::enqueue(s, look::line_of(p, w.location), w.word, w.location.0),
        Entry::FlushOpt(l) => change::enqueue(s, look::line_of(p, l), 0, t.0 + MARKER),
        Entry::Flush(_) | Entry::Sfence => s,
    }
}

// The entry at a position moved, where it breaks no rule.
pub(crate) fn move_entry(p: &Program, s: State, t: Thread, i: u8) -> State
    requires { ProgramFits p.now × (t.0 < most_threads) × (i < buffer_len s t.0)
        × (buffer_len s t.0 ≤ most_instructions) × Named most_locations (entry_at (buffer s t.0) i)
        × Roomy s }
    ensures { result ≡ move_of p.now s t.0 i }
{
    let mut u = s;
    let at = t.0 as usize;
    let base = at * INSTRUCTIONS;
    let n = u.waiting[at];
    let e = u.buffers[base + (i as usize)].entry;
    change::close(
        &mut u.buffers,
        base + (i as usize),
        base + (n as usize),
        BLANK,
    );
    u.waiting[at] = n - 1;
    take_effect(p, u, t, e)
}

// The oldest entry of a line's queue persisted, where there is one.
pub(crate) fn persist(s: State, q: Line) -> State
    requires { (q.0 < most_locations) × (0 < queue_len s q.0) × (queue_len s q.0 ≤ room) }
    ensures { result ≡ persist_of s q.0 }
{
    let mut u = s;
    let at = q.0 as usize;
    let base = at * ROOM;
    let n = u.lengths[at];
    let word = u.held[base];
    let to = u.marks[base] as usize;
    let end = base + (n as usize);
    change::close(&mut u.held, base, end, 0);
    change::close(&mut u.marks, base, end, 0);
    u.lengths[at] = n - 1;
    // A marker's mark is no location.
    if LOCATIONS <= to {
        return u;
    }
    u.words[to] = word;
    u
}
