// What a look through the state finds. No function here changes a state.
ghost use Rattle.std.specs.Prelude.{ℕ, ◌≡◌, ◌≢◌, ◌<◌, ◌≤◌, MatchOption, length, get_or, take, position};
ghost use Rattle.cases.specs.Sizes.{most_threads, most_instructions, most_locations};
ghost use Rattle.machine.specs.Sizes.{room};
ghost use Rattle.machine.specs.View.{line_of, queue, queue_len, buffer, buffer_len};
ghost use Rattle.machine.specs.Look.{newest_write, newest_store, marker_of, marked, bars, first_bar};

use crate::cells::{Entry, State, Waiting};
use crate::fitted::Fitted;
use crate::sizes::{MARKER, ROOM};
use cases::case::{Line, Location, Program, Thread};
use cases::sizes::LOCATIONS;

// Where a marker stands: its queue and its position there.
#[derive(Clone, Copy)]
pub struct Place {
    pub line: Line,
    pub position: u8,
}

// The line that a location lies on; 0 for a location that no program has, so that nobody needs to ask first.
#[tactic(auto, using(crate::proofs::view::LineOfLaws::line_beyond), unfolding(crate::specs::View::line_of))]
pub(crate) fn line_of(p: &Program, l: Location) -> Line
    ensures { result.0 ≡ line_of p.now l.0 }
{
    let at = l.0 as usize;
    if LOCATIONS <= at {
        return Line(0);
    }
    Line(p.line[at])
}

// The position of a location's last write among these marks.
fn last_write(marks: &[u8], l: Location) -> Option<usize>
    ensures { MatchOption result ((k : ℕ) → k < length marks.now → get_or marks.now k 0 ≢ l.0)
        (λ i. (i < length marks.now) × (get_or marks.now i 0 ≡ l.0)
        × ((k : ℕ) → i < k → k < length marks.now → get_or marks.now k 0 ≢ l.0)) }
{
    marks.iter().rposition(|m| *m == l.0)
}

// The newest write of a location in a line's queue, else the word given: the first one found from its end. By
// `rposition`: a `for` over `rev()` compiles to a loop half as long again.
pub(crate) fn newest_write(s: &State, q: Line, l: Location, other: u32) -> u32
    requires { (q.0 < most_locations) × (queue_len s.now q.0 ≤ room) }
    ensures { result ≡ newest_write l.0 (queue s.now q.0) other }
{
    let base = (q.0 as usize) * ROOM;
    match last_write(s.queued(q), l) {
        Some(i) => s.held[base + i],
        None => other,
    }
}

// The newest store to a location in a thread's buffer, else the word given: the first one found from its end. By index: of
// a slice's `rev()` the invariant would need what its iterator has left, in place of a position. The entry is lent: copied
// before it is looked at, a store elsewhere costs an instruction more.
pub(crate) fn newest_store(s: &State, t: Thread, l: Location, other: u32) -> u32
    requires { (t.0 < most_threads) × (buffer_len s.now t.0 ≤ most_instructions) }
    ensures { result ≡ newest_store l.0 (buffer s.now t.0) other }
{
    let b = s.buffer(t);
    for j in (0..b.len()).rev() {
        if let Entry::Store(x) = &b[j].entry {
            if x.location == l {
                return x.word;
            }
        }
    }
    other
}

// Does an entry keep a flush-opt of the line behind it?
#[tactic(auto, unfolding(crate::specs::Look::bars))]
fn is_bar(p: &Program, w: Waiting, q: Line) -> bool
    ensures { result ≡ bars p.now q.0 w.entry }
{
    match w.entry {
        Entry::Store(x) => line_of(p, x.location) == q,
        Entry::Flush(m) => line_of(p, m) == q,
        Entry::FlushOpt(_) => false,
        Entry::Sfence => true,
    }
}

// The first of these entries that does.
fn bar_in(p: &Program, entries: &[Waiting], q: Line) -> Option<usize>
    ensures { result ≡ position (λ w. bars p.now q.0 w.entry) entries.now }
{
    entries.iter().position(|w| is_bar(p, *w, q))
}

impl<'a> Fitted<'a> {
    // The first marker of a thread, by queue and then by position. The labels are the loops' names in the
    // proofs. Loops and no chain: document 01 names them ("goes through every queue and stops at the first one found").
    pub(crate) fn marker(&self, t: Thread) -> Option<Place>
        requires { t.0 < most_threads }
        ensures { result ≡ marker_of self.now.s.now.marks self.now.s.now.lengths t.0 }
    {
        let mark = t.0 + MARKER;
        'queues: for q in 0..LOCATIONS {
            let n = self.s.lengths[q];
            'entries: for i in 0..n {
                if self.s.marks[q * ROOM + (i as usize)] == mark {
                    return Some(Place {
                        line: Line(q as u8),
                        position: i,
                    });
                }
            }
        }
        None
    }

    // Does some queue hold a marker of the thread?
    #[tactic(auto, unfolding(crate::specs::Look::marked))]
    pub(crate) fn is_marked(&self, t: Thread) -> bool
        requires { t.0 < most_threads }
        ensures { result ≡ marked self.now.s.now.marks self.now.s.now.lengths t.0 }
    {
        self.marker(t).is_some()
    }

    // The position of the first of a buffer's first i entries that keeps a flush-opt of the line behind it; i
    // where none does.
    pub(crate) fn first_bar(&self, t: Thread, i: u8, q: Line) -> u8
        requires { (t.0 < most_threads) × (i ≤ buffer_len self.now.s.now t.0) }
        ensures { result ≡ first_bar self.now.p.now q.0 (take i (buffer self.now.s.now t.0)) }
    {
        let front = &self.buffer(t)[..i as usize];
        match bar_in(self.p, front, q) {
            Some(j) => j as u8,
            None => i,
        }
    }
}
