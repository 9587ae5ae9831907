// The legal next steps of a state, in 01's order: issue by thread, move by thread then position, persist by
// queue. One call for each state of a walk; the list is an array of ranks, filled in place.
ghost use Rattle.std.specs.Prelude.{◌≡◌, ◌+◌, ◌*◌, ◌<◌, ◌≤◌};
ghost use Rattle.machine.specs.Sizes.{most_candidates};
ghost use Rattle.machine.specs.Fit.{sum_to, any_from};
ghost use Rattle.machine.specs.Rules.{is_barrier};
ghost use Rattle.machine.specs.Next.{issue_step, move_step, persist_step, rank_of};
ghost use Rattle.search.specs.Sizes.{most_lanes};
ghost use Rattle.search.specs.Listing.{threads_in, lines_in};
ghost use Rattle.search.specs.Rows.{row_len, row_start};
ghost use Rattle.search.specs.Barred.{bars_tag, bars_at, operation_barred, issue_barred, head_barred, pass_barred};
ghost use Rattle.search.specs.Barred.{entry_barred, move_barred, persist_barred, offered, offered_from};
ghost use Rattle.search.specs.Barred.{offered_moves, next_lanes, step_at};

use crate::kinds::Kind;
use crate::listing::Listing;
use crate::operations::{COMPARE, EXCHANGE, MFENCE};
use crate::rows::View;
use crate::sizes::COUNTS;
use crate::{listing, rows};
use cases::case::{Line, Location, Step, Thread};
use cases::operations::{ISSUE, MOVE, PERSIST};
use cases::sizes::INSTRUCTIONS;
use machine::sizes::{CANDIDATES, RANKS};

// The first `count` ranks are those of the legal next steps; the others are 0. A buffer with its length, since there is
// no heap, and a list that is handed back by value has no other length. Ranks and not steps, as `next_lanes` has them: a
// rank is one byte and a step four, and each frame of the walk holds the whole array.
#[derive(Clone, Copy)]
pub struct Ranks {
    pub count: u8,
    pub ranks: [u8; CANDIDATES],
}

// Does an entry keep a flush-opt of the line behind it?
#[tactic(auto, using(cases::proofs::ChoiceLaws::choices), unfolding(crate::specs::Barred::bars_tag))]
fn is_bar(c: &Listing, tag: u32, q: Line) -> bool
    ensures { result ≡ bars_tag c.now.numbers q.0 tag }
{
    match Kind::from(tag) {
        Kind::Sfence => true,
        Kind::FlushOpt(_) => false,
        Kind::Flush(l) | Kind::Store(l) => c.line_of(l) == q,
    }
}

// Does one of the first n entries from base on?
#[tactic(auto, using(crate::proofs::next::RanksLoopLaws::bars), unfolding(crate::specs::Barred::bars_at))]
fn is_barred(v: &View, base: usize, n: usize, q: Line) -> bool
    requires { base + 2 * n ≤ most_lanes }
    ensures { result ≡ any_from 0 n (bars_at v.now.c.now.numbers q.0 v.now.x.now base) }
{
    for i in 0..n {
        if is_bar(v.c, v.x[base + 2 * i], q) {
            return true;
        }
    }
    false
}

// Exchange, compare and mfence.
#[tactic(auto, using(cases::proofs::ChoiceLaws::choices), unfolding(machine::specs::Rules::is_barrier))]
fn is_barrier(op: u32) -> bool
    ensures { result ≡ is_barrier op }
{
    matches!(op, EXCHANGE | COMPARE | MFENCE)
}

// They wait for the own buffer and for the thread's markers.
#[tactic(auto, using(cases::proofs::ChoiceLaws::choices), unfolding(crate::specs::Barred::operation_barred))]
fn is_operation_barred(v: &View, t: Thread, op: u32) -> bool
    requires { t.0 < threads_in v.now.c.now.numbers }
    ensures { result ≡ operation_barred v.now.c.now.numbers v.now.x.now t.0 op }
{
    if is_barrier(op) {
        if v.row_len(rows::buffer_row(t)) != 0 {
            return true;
        }
        return v.is_marked(t);
    }
    false
}

#[tactic(auto, using(cases::proofs::ChoiceLaws::choices), unfolding(crate::specs::Barred::issue_barred))]
fn is_issue_barred(v: &View, t: Thread) -> bool
    requires { t.0 < threads_in v.now.c.now.numbers }
    ensures { result ≡ issue_barred v.now.c.now.numbers v.now.x.now t.0 }
{
    let i = v.x[t.0 as usize];
    if v.c.numbers[COUNTS + (t.0 as usize)] <= i {
        return true;
    }
    is_operation_barred(v, t, v.c.numbers[listing::code_at(t, i as usize)])
}

// Of an entry at the head of a thread's buffer.
#[tactic(auto, using(cases::proofs::ChoiceLaws::choices), unfolding(crate::specs::Barred::head_barred))]
fn is_head_barred(v: &View, t: Thread, tag: u32) -> bool
    ensures { result ≡ head_barred v.now.c.now.numbers v.now.x.now t.0 tag }
{
    match Kind::from(tag) {
        Kind::Sfence => v.is_marked(t),
        Kind::Flush(l) => v.row_len(v.c.queue_row(v.c.line_of(l))) != 0,
        Kind::FlushOpt(_) | Kind::Store(_) => false,
    }
}

// Of an entry at position i behind it, the buffer's row starting at base.
#[tactic(auto, using(cases::proofs::ChoiceLaws::choices), unfolding(crate::specs::Barred::pass_barred))]
fn is_pass_barred(v: &View, base: usize, i: usize, tag: u32) -> bool
    requires { base + 2 * i ≤ most_lanes }
    ensures { result ≡ pass_barred v.now.c.now.numbers v.now.x.now base i tag }
{
    match Kind::from(tag) {
        Kind::FlushOpt(l) => is_barred(v, base, i, v.c.line_of(l)),
        Kind::Sfence | Kind::Flush(_) | Kind::Store(_) => true,
    }
}

#[tactic(auto, using(cases::proofs::ChoiceLaws::choices), unfolding(crate::specs::Barred::entry_barred))]
fn is_entry_barred(v: &View, t: Thread, base: usize, i: usize) -> bool
    requires { base + 2 * i + 2 ≤ most_lanes }
    ensures { result ≡ entry_barred v.now.c.now.numbers v.now.x.now t.0 base i }
{
    let tag = v.x[base + 2 * i];
    if i == 0 {
        return is_head_barred(v, t, tag);
    }
    is_pass_barred(v, base, i, tag)
}

// A step of each code; what says nothing in one is 0 there.
fn issue_step(t: Thread) -> Step
    ensures { result ≡ issue_step t.0 }
{
    Step {
        thread: t,
        code: ISSUE,
        position: 0,
        location: Location(0),
    }
}

fn move_step(t: Thread, i: u8) -> Step
    ensures { result ≡ move_step t.0 i }
{
    Step {
        thread: t,
        code: MOVE,
        position: i,
        location: Location(0),
    }
}

fn persist_step(q: Line) -> Step
    ensures { result ≡ persist_step q.0 }
{
    Step {
        thread: Thread(0),
        code: PERSIST,
        position: 0,
        location: Location(q.0),
    }
}

// A step's rank in the order.
#[tactic(auto, unfolding(machine::specs::Next::rank_of))]
fn rank(k: Step) -> u8
    requires { rank_of k < 256 }
    ensures { result ≡ rank_of k }
{
    k.code * (RANKS as u8) + k.thread.0 * (INSTRUCTIONS as u8) + k.position + k.location.0
}

impl Ranks {
    // A step more, where it is not barred: the test once, and not in each of three loops.
    #[tactic(auto, using(cases::proofs::ChoiceLaws::choices), unfolding(crate::specs::Barred::offered, crate::specs::Barred::pushed))]
    fn offer(&mut self, barred: bool, k: Step)
        requires { (self.old.count < most_candidates) × (rank_of k < 256) }
        ensures { self.new ≡ offered barred k self.old }
    {
        if !barred {
            self.ranks[self.count as usize] = rank(k);
            self.count += 1;
        }
    }
}

// One shape three times, apart in the test and the step: over two closures each of the three would have to state of both
// that they can be called and what they give, where now it calls two functions that say it.
#[tactic(auto, using(crate::proofs::next::RanksLoopLaws::offers), unfolding(machine::specs::Next::rank_of))]
fn offer_issues(v: &View, to: &mut Ranks)
    requires { to.old.count + threads_in v.now.c.now.numbers ≤ most_candidates }
    ensures { (to.new ≡ offered_from (issue_barred v.now.c.now.numbers v.now.x.now)
        issue_step 0 (threads_in v.now.c.now.numbers) to.old)
        × (to.new.count ≤ to.old.count + threads_in v.now.c.now.numbers) }
{
    for t in 0..(v.c.threads() as u8) {
        let barred = is_issue_barred(v, Thread(t));
        to.offer(barred, issue_step(Thread(t)));
    }
}

// The moves of one thread, whose buffer's row starts at base.
#[tactic(auto, using(crate::proofs::rows::RowLoopLaws::row_room, crate::proofs::next::RanksLoopLaws::offers))]
fn offer_moves_of(v: &View, t: Thread, base: usize, to: &mut Ranks)
    requires { (t.0 < threads_in v.now.c.now.numbers)
        × (base ≡ row_start v.now.c.now.numbers v.now.x.now t.0)
        × (to.old.count + row_len v.now.c.now.numbers v.now.x.now t.0 ≤ most_candidates) }
    ensures { (to.new ≡ offered_from (move_barred v.now.c.now.numbers v.now.x.now t.0) (move_step t.0) 0
        (row_len v.now.c.now.numbers v.now.x.now t.0) to.old)
        × (to.new.count ≤ to.old.count + row_len v.now.c.now.numbers v.now.x.now t.0) }
{
    let many = v.row_len(rows::buffer_row(t)) as u8;
    for i in 0..many {
        let barred = is_entry_barred(v, t, base, i as usize);
        to.offer(barred, move_step(t, i));
    }
}

#[tactic(auto, using(crate::proofs::next::RanksLoopLaws::moving))]
fn offer_moves(v: &View, to: &mut Ranks)
    requires { to.old.count + sum_to (threads_in v.now.c.now.numbers) (row_len v.now.c.now.numbers v.now.x.now) ≤ most_candidates }
    ensures { (to.new ≡ offered_moves v.now.c.now.numbers v.now.x.now 0 (threads_in v.now.c.now.numbers) to.old)
        × (to.new.count ≤ to.old.count + sum_to (threads_in v.now.c.now.numbers) (row_len v.now.c.now.numbers v.now.x.now)) }
{
    let mut base = v.c.pool_at();
    for t in 0..(v.c.threads() as u8) {
        offer_moves_of(v, Thread(t), base, to);
        base += 2 * v.row_len(rows::buffer_row(Thread(t)));
    }
}

#[tactic(auto, using(crate::proofs::next::RanksLoopLaws::offers), unfolding(machine::specs::Next::rank_of, crate::specs::Barred::persist_barred))]
fn offer_persists(v: &View, to: &mut Ranks)
    requires { to.old.count + lines_in v.now.c.now.numbers ≤ most_candidates }
    ensures { to.new ≡ offered_from (persist_barred v.now.c.now.numbers v.now.x.now)
        persist_step 0 (lines_in v.now.c.now.numbers) to.old }
{
    for q in 0..(v.c.lines() as u8) {
        let barred = v.row_len(v.c.queue_row(Line(q))) == 0;
        to.offer(barred, persist_step(Line(q)));
    }
}

#[tactic(auto, using(crate::proofs::next::RanksLoopLaws::steps))]
pub(crate) fn next_steps(v: &View) -> Ranks
    ensures { result ≡ next_lanes v.now.c.now.numbers v.now.x.now }
{
    let mut next = Ranks {
        count: 0,
        ranks: [0u8; CANDIDATES],
    };
    offer_issues(v, &mut next);
    offer_moves(v, &mut next);
    offer_persists(v, &mut next);
    next
}

// The step of a rank.
#[tactic(auto, using(cases::proofs::ChoiceLaws::choices), unfolding(crate::specs::Barred::step_at))]
pub(crate) fn step_at(r: u8) -> Step
    ensures { result ≡ step_at r }
{
    let n = r as usize;
    if n < RANKS {
        return issue_step(Thread((n / INSTRUCTIONS) as u8));
    }
    if n < 2 * RANKS {
        let t = Thread(((n - RANKS) / INSTRUCTIONS) as u8);
        return move_step(t, ((n - RANKS) % INSTRUCTIONS) as u8);
    }
    persist_step(Line((n - 2 * RANKS) as u8))
}
