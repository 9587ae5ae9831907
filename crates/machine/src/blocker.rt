// The first entry that stands in the way of a step that breaks a rule. Asked only once a rule is broken.
ghost use Rattle.std.specs.Prelude.{◌≡◌, ◌<◌, ◌≤◌};
ghost use Rattle.cases.specs.Sizes.{most_threads};
ghost use Rattle.machine.specs.View.{buffer, buffer_len};
ghost use Rattle.machine.specs.Parts.{parts_of};
ghost use Rattle.machine.specs.Rules.{entry_at, rule_number};
ghost use Rattle.machine.specs.Blocker.{blocker_which, blocker_number, blocker_position, marker_place};
ghost use Rattle.machine.specs.Blocker.{entry_line, blocker_by};

use crate::cells::Entry;
use crate::fitted::Fitted;
use crate::look;
use crate::look::Place;
use crate::rule::Rule;
use cases::case::{Line, Step, Thread};

// Where it stands: a thread's buffer or a line's queue, and the position there. Three kinds and no Option of two: the
// numbers 1, 2 and 0 of `blocker_which` tell them, and `judge_illegal` and `InTheWay` of specs/InTheWay.antt go by all three.
#[derive(Clone, Copy)]
pub enum Blocker {
    InBuffer(Thread, u8),
    InQueue(Line, u8),
    NoEntry,
}

// 1 for a buffer, 2 for a queue, 0 where no entry is named.
pub fn blocker_which(b: Blocker) -> u8
    ensures { result ≡ blocker_which b }
{
    match b {
        Blocker::InBuffer(_, _) => 1,
        Blocker::InQueue(_, _) => 2,
        Blocker::NoEntry => 0,
    }
}

// Which buffer or queue: its thread or its line.
pub fn blocker_number(b: Blocker) -> u8
    ensures { result ≡ blocker_number b }
{
    match b {
        Blocker::InBuffer(t, _) => t.0,
        Blocker::InQueue(q, _) => q.0,
        Blocker::NoEntry => 0,
    }
}

// The position in it, 0 for the oldest.
pub fn blocker_position(b: Blocker) -> u8
    ensures { result ≡ blocker_position b }
{
    match b {
        Blocker::InBuffer(_, i) | Blocker::InQueue(_, i) => i,
        Blocker::NoEntry => 0,
    }
}

// The place of a marker that was looked for.
fn marker_place(found: Option<Place>) -> Blocker
    ensures { result ≡ marker_place found }
{
    match found {
        Some(m) => Blocker::InQueue(m.line, m.position),
        None => Blocker::NoEntry,
    }
}

impl<'a> Fitted<'a> {
    // The line of an entry that waits: an sfence's is never asked for.
    #[tactic(auto, unfolding(crate::specs::Blocker::entry_line))]
    fn entry_line(&self, t: Thread, i: u8) -> Line
        requires { (t.0 < most_threads) × (i < buffer_len self.now.s.now t.0) }
        ensures { result.0 ≡ entry_line self.now.p.now (entry_at (buffer self.now.s.now t.0) i) }
    {
        let w = self.buffer(t)[i as usize];
        match w.entry {
            Entry::Store(x) => look::line_of(self.p, x.location),
            Entry::Flush(l) | Entry::FlushOpt(l) => look::line_of(self.p, l),
            Entry::Sfence => Line(0),
        }
    }

    // The first entry in the way of a step, by the rule that it breaks.
    #[tactic(auto, unfolding(crate::specs::Blocker::blocker_by, cases::specs::Choice::pick))]
    pub(crate) fn blocker_by(&self, k: Step, broken: Rule) -> Blocker
        requires { (k.thread.0 < most_threads)
            × (26 ≤ rule_number broken → rule_number broken ≤ 27 → k.position < buffer_len self.now.s.now k.thread.0) }
        ensures { result ≡ blocker_by (rule_number broken) self.now.p.now (parts_of self.now.s.now) k }
    {
        let t = k.thread;
        let i = k.position;
        match broken {
            Rule::BufferNotEmpty => Blocker::InBuffer(t, 0),
            Rule::MarkerQueued | Rule::MarkerBeforeSfence => marker_place(self.marker(t)),
            Rule::HeldBack => {
                let q = self.entry_line(t, i);
                Blocker::InBuffer(t, self.first_bar(t, i, q))
            }
            Rule::LineNotEmpty => Blocker::InQueue(self.entry_line(t, i), 0),
            _ => Blocker::NoEntry,
        }
    }
}
