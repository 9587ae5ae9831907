// Refusal 33: does a state in memory fit its program? Anything of the types may be given.
ghost use Rattle.std.specs.Prelude.{◌≡◌, ◌*◌, ◌<◌, ◌≤◌, length, sum};
ghost use Rattle.std.specs.List.{list_any};
ghost use Rattle.cases.specs.Sizes.{most_threads, most_instructions, most_locations};
ghost use Rattle.machine.specs.Sizes.{room};
ghost use Rattle.machine.specs.View.{marks_in, queue_len, buffer, buffer_len};
ghost use Rattle.machine.specs.Fit.{sum_to, any_from, strays, strayed, foreign, unissued, due};
ghost use Rattle.machine.specs.Fit.{thread_misfits, queue_misfits, misfits};

use crate::cells::{Entry, State, Waiting};
use crate::look;
use crate::sizes::{MARKER, ROOM};
use cases::case::{Line, Location, Program, Thread};
use cases::checks;
use cases::sizes::{INSTRUCTIONS, LOCATIONS, THREADS};

// Does an entry name a location that the program lacks?
#[tactic(auto, unfolding(crate::specs::Fit::strays))]
fn is_stray(w: Waiting, locations: u8) -> bool
    ensures { result ≡ strays locations w.entry }
{
    match w.entry {
        Entry::Store(x) => locations <= x.location.0,
        Entry::Flush(l) | Entry::FlushOpt(l) => locations <= l.0,
        Entry::Sfence => false,
    }
}

// Does one of a thread's waiting entries?
fn has_stray(s: &State, t: Thread, locations: u8) -> bool
    requires { (t.0 < most_threads) × (buffer_len s.now t.0 ≤ most_instructions) }
    ensures { result ≡ list_any (strayed locations) (buffer s.now t.0) }
{
    s.buffer(t).iter().any(|w| is_stray(*w, locations))
}

// Does a mark not belong in a line's queue: the thread or the location of none, or a location of another line?
#[tactic(auto, using(cases::proofs::ChoiceLaws::choices), unfolding(crate::specs::Fit::foreign))]
fn is_foreign(p: &Program, q: Line, mark: u8) -> bool
    ensures { result ≡ foreign p.now q.0 mark }
{
    if MARKER <= mark {
        return p.threads <= mark - MARKER;
    }
    if p.locations <= mark {
        return true;
    }
    look::line_of(p, Location(mark)) != q
}

// Does one of a queue's marks?
fn has_foreign(p: &Program, s: &State, q: Line) -> bool
    requires { (q.0 < most_locations) × (queue_len s.now q.0 ≤ room) }
    ensures { result ≡ list_any (foreign p.now q.0) (marks_in s.now.marks s.now.lengths q.0) }
{
    s.queued(q).iter().any(|m| is_foreign(p, q, *m))
}

// How many of a thread's instructions are not issued; 0 where more are issued than it has.
#[tactic(auto, unfolding(crate::specs::Fit::unissued))]
fn unissued_of(p: &Program, s: &State, t: Thread) -> usize
    requires { t.0 < most_threads }
    ensures { (result ≡ unissued p.now s.now t.0) × (result ≤ 255) }
{
    let at = t.0 as usize;
    p.counts[at].saturating_sub(s.issued[at]) as usize
}

// Is there something in a thread's part of the state that doesn't fit?
#[tactic(auto, using(cases::proofs::ChoiceLaws::choices, crate::proofs::lists::AnyLaws::any_of_is), unfolding(crate::specs::Fit::thread_misfits))]
fn thread_misfits(p: &Program, s: &State, t: Thread) -> bool
    requires { t.0 < most_threads }
    ensures { result ≡ thread_misfits p.now s.now t.0 }
{
    let at = t.0 as usize;
    let n = s.waiting[at];
    if p.counts[at] < s.issued[at] {
        return true;
    }
    if p.threads <= t.0 && 0 < n {
        return true;
    }
    if INSTRUCTIONS < (n as usize) + unissued_of(p, s, t) {
        return true;
    }
    has_stray(s, t, p.locations)
}

fn threads_misfit(p: &Program, s: &State) -> bool
    ensures { result ≡ any_from 0 most_threads (thread_misfits p.now s.now) }
{
    (0..THREADS).any(|t| thread_misfits(p, s, Thread(t as u8)))
}

// All of these counts, of entries in buffers or in queues.
pub(crate) fn total(counts: &[u8]) -> usize
    requires { length counts.now ≤ 256 }
    ensures is { result ≡ sum counts.now }
    ensures few { result ≤ length counts.now * 255 }
{
    counts.iter().map(|n| *n as usize).sum()
}

// All instructions that are not issued. No chain: of a sum over numbers the check finds neither the bound nor the sum.
fn all_unissued(p: &Program, s: &State) -> usize
    ensures { (result ≡ sum_to most_threads (unissued p.now s.now)) × (result ≤ 255 * most_threads) }
{
    let mut n: usize = 0;
    for t in 0..THREADS {
        n += unissued_of(p, s, Thread(t as u8));
    }
    n
}

// Is there something in a queue that doesn't fit? What may still come into it is given, and no bound is asked of it.
#[tactic(auto, using(cases::proofs::ChoiceLaws::choices, crate::proofs::lists::AnyLaws::any_of_is), unfolding(crate::specs::Fit::queue_misfits))]
fn queue_misfits(p: &Program, s: &State, q: Line, coming: usize) -> bool
    requires { (q.0 < most_locations) × (coming ≡ due p.now s.now) }
    ensures { result ≡ queue_misfits p.now s.now q.0 }
{
    let n = s.lengths[q.0 as usize];
    if checks::lines_of(*p) <= q.0 && 0 < n {
        return true;
    }
    if ROOM < (n as usize).saturating_add(coming) {
        return true;
    }
    has_foreign(p, s, q)
}

// No chain: the call asks something of `coming`, and of a closure the check doesn't find the answer then.
fn queues_misfit(p: &Program, s: &State) -> bool
    ensures { result ≡ any_from 0 most_locations (queue_misfits p.now s.now) }
{
    let coming = total(&s.waiting) + all_unissued(p, s);
    for q in 0..LOCATIONS {
        if queue_misfits(p, s, Line(q as u8), coming) {
            return true;
        }
    }
    false
}

// Refusal 33.
#[tactic(auto, using(cases::proofs::ChoiceLaws::choices), unfolding(crate::specs::Fit::misfits))]
pub(crate) fn is_misfit(p: &Program, s: &State) -> bool
    ensures { result ≡ misfits p.now s.now }
{
    threads_misfit(p, s) || queues_misfit(p, s)
}
