// A legal step taken over lanes: what changes in a state is changed in place. So listing and lanes are lent apart, with
// `FewEntries` in the contracts, and are no `View`: between a step's writes, an entry in and its row counted, it is false.
ghost use Rattle.std.specs.Prelude.{◌≡◌, ◌+◌, ◌*◌, ◌<◌, ◌≤◌, get_or};
ghost use Rattle.cases.specs.Sizes.{all_code};
ghost use Rattle.search.specs.Sizes.{most_lanes};
ghost use Rattle.search.specs.Listing.{threads_in, lines_in, count_in};
ghost use Rattle.search.specs.Rows.{rows_in, queue_row, pool_at, row_len, row_start, FewEntries, RoomForOne};
ghost use Rattle.search.specs.Taken.{inserted, carried, counted, discounted, row_joined, row_left, row_carried};
ghost use Rattle.search.specs.Taken.{entry_tag, entry_word, awaited_lanes, took_lanes, fetched_lanes};
ghost use Rattle.search.specs.Taken.{exchanged_lanes, compared_lanes, performed_lanes, issue_lanes, moved_lanes};
ghost use Rattle.search.specs.Taken.{move_lanes, persist_lanes, step_lanes, CodeHere, Takes};

use crate::kinds::Kind;
use crate::listing::Listing;
use crate::operations::{
    COMPARE, EXCHANGE, FLUSH, FLUSH_OPT, LOAD, MFENCE, STORE_REGISTER, STORE_WORD,
};
use crate::rows::{Row, View};
use crate::sizes::{FLUSH_OPT_TAG, FLUSH_TAG, LANES, SFENCE_TAG};
use crate::{listing, rows};
use cases::case::{Line, Location, Step, Thread};
use cases::operations::{ISSUE, MOVE};

// An entry more before lane `at`: what stands from there to `end` goes two further.
#[tactic(auto, using(crate::proofs::taken::InPlaceLaws::inserted_made))]
fn insert(x: &mut [u32; LANES], at: usize, end: usize, tag: u32, word: u32)
    requires { (at ≤ end) × (end + 2 ≤ most_lanes) }
    ensures { x.new ≡ inserted x.old at end tag word }
{
    x.copy_within(at..end, at + 2);
    x[at] = tag;
    x[at + 1] = word;
}

// The entry at lane `at` goes, as tag and word, to just before lane `to`: what stands between comes two nearer.
#[tactic(auto, using(crate::proofs::taken::InPlaceLaws::carried_made))]
fn carry(x: &mut [u32; LANES], at: usize, to: usize, tag: u32, word: u32)
    requires { (at + 2 ≤ to) × (to ≤ most_lanes) }
    ensures { x.new ≡ carried x.old at to tag word }
{
    x.copy_within(at + 2..to, at);
    x[to - 2] = tag;
    x[to - 1] = word;
}

// A number of a lane one more, and one less: one function for both would only hide which.
#[tactic(auto, unfolding(crate::specs::Taken::counted))]
fn count(x: &mut [u32; LANES], at: usize)
    requires { (at < most_lanes) × (get_or x.old at 0 < all_code) }
    ensures { x.new ≡ counted x.old at }
{
    x[at] += 1;
}

#[tactic(auto, unfolding(crate::specs::Taken::discounted))]
fn discount(x: &mut [u32; LANES], at: usize)
    requires { (at < most_lanes) × (0 < get_or x.old at 0) }
    ensures { x.new ≡ discounted x.old at }
{
    x[at] -= 1;
}

// An entry more at a row's end.
#[tactic(auto, using(crate::proofs::taken::RowLenLaws::joined_within, crate::proofs::taken::RowLenLaws::joined_count), unfolding(crate::specs::Taken::row_joined))]
fn join(c: &Listing, x: &mut [u32; LANES], r: Row, tag: u32, word: u32)
    requires { RoomForOne c.now.numbers x.old × (r.0 < rows_in c.now.numbers) }
    ensures { x.new ≡ row_joined c.now.numbers x.old r.0 tag word }
{
    let v = View { c, x };
    let at = v.row_start(Row(r.0 + 1));
    let end = v.pool_end();
    insert(x, at, end, tag, word);
    count(x, c.row_len_at(r));
}

// The entry at a lane of a row leaves it.
#[tactic(auto, using(crate::proofs::taken::RowLenLaws::carried_within, crate::proofs::taken::RowLenLaws::carried_discount), unfolding(crate::specs::Taken::row_left))]
fn leave(c: &Listing, x: &mut [u32; LANES], r: Row, at: usize)
    requires { FewEntries c.now.numbers x.old × (r.0 < rows_in c.now.numbers)
        × (0 < row_len c.now.numbers x.old r.0) × (pool_at c.now.numbers ≤ at)
        × (at + 2 ≤ row_start c.now.numbers x.old (r.0 + 1)) }
    ensures { x.new ≡ row_left c.now.numbers x.old r.0 at }
{
    let end = View { c, x }.pool_end();
    carry(x, at, end, 0, 0);
    discount(x, c.row_len_at(r));
}

// The entry at a lane of a buffer's row goes to the end of a line's queue, with another tag.
#[tactic(auto, unfolding(crate::specs::Taken::row_carried))]
fn carry_over(c: &Listing, x: &mut [u32; LANES], t: Thread, at: usize, q: Line, tag: u32)
    requires { FewEntries c.now.numbers x.old × (t.0 < threads_in c.now.numbers)
        × (q.0 < lines_in c.now.numbers) × (0 < row_len c.now.numbers x.old t.0) × (pool_at c.now.numbers ≤ at)
        × (at + 2 ≤ row_start c.now.numbers x.old (t.0 + 1)) }
    ensures { x.new ≡ row_carried c.now.numbers x.old t.0 at q.0 tag }
{
    let r = c.queue_row(q);
    let to = View { c, x }.row_start(Row(r.0 + 1));
    let word = x[at + 1];
    carry(x, at, to, tag, word);
    discount(x, c.row_len_at(rows::buffer_row(t)));
    count(x, c.row_len_at(r));
}

// The tag of the entry that an instruction puts into its thread's buffer, and its word.
#[tactic(auto, using(cases::proofs::ChoiceLaws::choices), unfolding(crate::specs::Taken::entry_tag))]
fn entry_tag(op: u32, l: Location) -> u32
    ensures { result ≡ entry_tag op l.0 }
{
    let n = l.0 as u32;
    match op {
        STORE_WORD | STORE_REGISTER => n,
        FLUSH => FLUSH_TAG + n,
        FLUSH_OPT => FLUSH_OPT_TAG + n,
        _ => SFENCE_TAG,
    }
}

#[tactic(auto, using(cases::proofs::ChoiceLaws::choices), unfolding(crate::specs::Taken::entry_word))]
fn entry_word(op: u32, word: u32, register: u32) -> u32
    ensures { result ≡ entry_word op word register }
{
    match op {
        STORE_WORD => word,
        STORE_REGISTER => register,
        _ => 0,
    }
}

// Stores, flushes, flush-opts and sfences join the end of the thread's buffer.
#[tactic(auto, unfolding(crate::specs::Taken::awaited_lanes))]
fn await_entry(c: &Listing, x: &mut [u32; LANES], t: Thread, at: usize)
    requires { CodeHere c.now.numbers x.old t.0 at }
    ensures { x.new ≡ awaited_lanes c.now.numbers x.old t.0 at }
{
    let r = c.target_at(t, at);
    let tag = entry_tag(c.numbers[at], c.location_at(at));
    let word = entry_word(c.numbers[at], c.numbers[at + 3], x[r]);
    join(c, x, rows::buffer_row(t), tag, word);
}

// A load's register takes the word that the load finds.
#[tactic(auto, unfolding(crate::specs::Taken::took_lanes))]
fn take_load(c: &Listing, x: &mut [u32; LANES], t: Thread, at: usize)
    requires { CodeHere c.now.numbers x.old t.0 at }
    ensures { x.new ≡ took_lanes c.now.numbers x.old t.0 at }
{
    let r = c.target_at(t, at);
    let word = View { c, x }.loaded(t, c.location_at(at));
    x[r] = word;
}

// An exchange's or a compare's register takes the word read.
#[tactic(auto, unfolding(crate::specs::Taken::fetched_lanes))]
fn fetch(c: &Listing, x: &mut [u32; LANES], t: Thread, at: usize)
    requires { CodeHere c.now.numbers x.old t.0 at }
    ensures { x.new ≡ fetched_lanes c.now.numbers x.old t.0 at }
{
    let r = c.target_at(t, at);
    let word = View { c, x }.queued(c.location_at(at));
    x[r] = word;
}

// The word goes to the end of the location's queue.
#[tactic(auto, using(crate::proofs::taken::RowLenLaws::fetched_room, crate::proofs::listing::ListingLaws::queue_low), unfolding(crate::specs::Taken::exchanged_lanes))]
fn exchange(c: &Listing, x: &mut [u32; LANES], t: Thread, at: usize)
    requires { CodeHere c.now.numbers x.old t.0 at }
    ensures { x.new ≡ exchanged_lanes c.now.numbers x.old t.0 at }
{
    fetch(c, x, t, at);
    let l = c.location_at(at);
    join(
        c,
        x,
        c.queue_row(c.line_of(l)),
        c.numbers[at + 1],
        c.numbers[at + 3],
    );
}

// An exchange where the word read is the register's.
#[tactic(auto, using(cases::proofs::ChoiceLaws::choices), unfolding(crate::specs::Taken::compared_lanes, crate::specs::Taken::fetched_lanes))]
fn compare(c: &Listing, x: &mut [u32; LANES], t: Thread, at: usize)
    requires { CodeHere c.now.numbers x.old t.0 at }
    ensures { x.new ≡ compared_lanes c.now.numbers x.old t.0 at }
{
    let r = c.target_at(t, at);
    let word = View { c, x }.queued(c.location_at(at));
    if word == x[r] {
        exchange(c, x, t, at);
        return;
    }
    fetch(c, x, t, at);
}

// What an instruction does as it is issued.
#[tactic(auto, using(cases::proofs::ChoiceLaws::choices), unfolding(crate::specs::Taken::performed_lanes))]
fn perform(c: &Listing, x: &mut [u32; LANES], t: Thread, at: usize)
    requires { CodeHere c.now.numbers x.old t.0 at }
    ensures { x.new ≡ performed_lanes c.now.numbers x.old t.0 at }
{
    match c.numbers[at] {
        LOAD => take_load(c, x, t, at),
        EXCHANGE => exchange(c, x, t, at),
        COMPARE => compare(c, x, t, at),
        MFENCE => {}
        _ => await_entry(c, x, t, at),
    }
}

#[tactic(auto, using(crate::proofs::listing::ListingLaws::code_low, crate::proofs::taken::RowLenLaws::code_here), unfolding(crate::specs::Taken::issue_lanes))]
fn issue(c: &Listing, x: &mut [u32; LANES], t: Thread)
    requires { RoomForOne c.now.numbers x.old × (t.0 < threads_in c.now.numbers)
        × (get_or x.old t.0 0 < count_in c.now.numbers t.0) }
    ensures { x.new ≡ issue_lanes c.now.numbers x.old t.0 }
{
    let at = listing::code_at(t, x[t.0 as usize] as usize);
    count(x, t.0 as usize);
    perform(c, x, t, at);
}

// By the tag of the entry at a lane of a thread's buffer.
#[tactic(auto, using(cases::proofs::ChoiceLaws::choices), unfolding(crate::specs::Taken::moved_lanes))]
fn move_tagged(c: &Listing, x: &mut [u32; LANES], t: Thread, at: usize, tag: u32)
    requires { FewEntries c.now.numbers x.old × (t.0 < threads_in c.now.numbers)
        × (0 < row_len c.now.numbers x.old t.0) × (pool_at c.now.numbers ≤ at)
        × (at + 2 ≤ row_start c.now.numbers x.old (t.0 + 1)) }
    ensures { x.new ≡ moved_lanes c.now.numbers x.old t.0 at tag }
{
    match Kind::from(tag) {
        Kind::Sfence | Kind::Flush(_) => leave(c, x, rows::buffer_row(t), at),
        Kind::FlushOpt(l) => carry_over(c, x, t, at, c.line_of(l), rows::mark_of(t)),
        Kind::Store(l) => carry_over(c, x, t, at, c.line_of(l), tag),
    }
}

#[tactic(auto, unfolding(crate::specs::Taken::move_lanes))]
fn move_entry(c: &Listing, x: &mut [u32; LANES], t: Thread, i: usize)
    requires { FewEntries c.now.numbers x.old × (t.0 < threads_in c.now.numbers)
        × (i < row_len c.now.numbers x.old t.0) }
    ensures { x.new ≡ move_lanes c.now.numbers x.old t.0 i }
{
    let at = View { c, x }.row_start(rows::buffer_row(t)) + 2 * i;
    let tag = x[at];
    move_tagged(c, x, t, at, tag);
}

#[tactic(auto, using(cases::proofs::ChoiceLaws::choices), unfolding(crate::specs::Taken::persist_lanes, crate::specs::Taken::settled_lanes))]
fn persist(c: &Listing, x: &mut [u32; LANES], q: Line)
    requires { FewEntries c.now.numbers x.old × (q.0 < lines_in c.now.numbers)
        × (0 < row_len c.now.numbers x.old (queue_row c.now.numbers q.0)) }
    ensures { x.new ≡ persist_lanes c.now.numbers x.old q.0 }
{
    let r = c.queue_row(q);
    let at = View { c, x }.row_start(r);
    let tag = x[at];
    let word = x[at + 1];
    leave(c, x, r, at);
    // a mark that is a location is a write's; a marker's is above them all: one number, as the machine's own state has it
    // (`State.marks`), and the definitions of lanes (`slot_lanes`, `settled_lanes`)
    if tag < (c.locations() as u32) {
        x[c.word_at(Location(tag as u8))] = word;
    }
}

// Takes a legal step.
#[tactic(auto, using(cases::proofs::ChoiceLaws::choices, crate::proofs::taken::TakenLaws::taking), unfolding(crate::specs::Taken::step_lanes))]
pub(crate) fn take(c: &Listing, x: &mut [u32; LANES], k: Step)
    requires { FewEntries c.now.numbers x.old × Takes c.now.numbers x.old k }
    ensures { x.new ≡ step_lanes c.now.numbers x.old k }
{
    match k.code {
        ISSUE => issue(c, x, k.thread),
        MOVE => move_entry(c, x, k.thread, k.position as usize),
        _ => persist(c, x, Line(k.location.0)),
    }
}
