// Rows of entries among a state's lanes: where they start and end, and what a look through them finds. Nothing here
// changes a lane; where the other lanes stand is in listing.rt.
ghost use Rattle.std.specs.Prelude.{◌≡◌, ◌+◌, ◌*◌, ◌<◌, ◌≤◌};
ghost use Rattle.machine.specs.View.{mark_of};
ghost use Rattle.search.specs.Sizes.{most_lanes};
ghost use Rattle.search.specs.Listing.{threads_in, locations_in};
ghost use Rattle.search.specs.Rows.{rows_in, row_len, row_start};
ghost use Rattle.search.specs.Rows.{pool_end, FewEntries, newest_lane, queued_lane, loaded_lane, marked_lanes};

use crate::listing::Listing;
use crate::sizes::LANES;
use cases::case::{Line, Location, Thread};
use machine::sizes::MARKER;

// A row of entries: of a thread's buffer, or, behind all of these, of a line's queue.
#[derive(Clone, Copy)]
pub struct Row(pub usize);

// A state's lanes beside the listing of its program, to be looked at.
#[derive(Clone, Copy)]
pub struct View<'a> {
    pub c: &'a Listing,
    pub x: &'a [u32; LANES],
    ghost few: { FewEntries c.now.numbers x.now },
}

pub(crate) fn buffer_row(t: Thread) -> Row
    ensures { result.0 ≡ t.0 }
{
    Row(t.0 as usize)
}

// Of n entries from base on, the word of the newest with that tag, else the word given: the first one found from
// their end. By number, here and below: an entry is two lanes, and base and n are what `newest_lane` and its like take.
#[tactic(auto, using(crate::proofs::rows::RowLoopLaws::newest))]
fn newest(x: &[u32; LANES], base: usize, tag: u32, other: u32, n: usize) -> u32
    requires { base + 2 * n ≤ most_lanes }
    ensures { result ≡ newest_lane x.now base tag other n }
{
    for i in (0..n).rev() {
        let at = base + 2 * i;
        if x[at] == tag {
            return x[at + 1];
        }
    }
    other
}

// A thread's markers in queues.
pub(crate) fn mark_of(t: Thread) -> u32
    ensures { result ≡ mark_of t.0 }
{
    (t.0 as u32) + (MARKER as u32)
}

impl<'a> View<'a> {
    // How many entries a row has.
    #[tactic(auto, unfolding(crate::specs::Rows::row_len))]
    pub(crate) fn row_len(&self, r: Row) -> usize
        requires { r.0 < rows_in self.now.c.now.numbers }
        ensures { result ≡ row_len self.now.c.now.numbers self.now.x.now r.0 }
    {
        self.x[self.c.row_len_at(r)] as usize
    }

    // Where a row starts; behind the last row, where that one ends. By number: a row's length stands by its own.
    pub(crate) fn row_start(&self, r: Row) -> usize
        requires { r.0 ≤ rows_in self.now.c.now.numbers }
        ensures { result ≡ row_start self.now.c.now.numbers self.now.x.now r.0 }
    {
        let mut n = self.c.pool_at();
        for i in 0..r.0 {
            n += 2 * self.row_len(Row(i));
        }
        n
    }

    // Where the last row ends.
    pub(crate) fn pool_end(&self) -> usize
        ensures { result ≡ pool_end self.now.c.now.numbers self.now.x.now }
    {
        self.row_start(Row(self.c.rows()))
    }

    // What stands for a location where no buffer is looked at.
    #[tactic(auto, using(crate::proofs::rows::RowLoopLaws::row_room, crate::proofs::rows::RowLoopLaws::queued_made))]
    pub(crate) fn queued(&self, l: Location) -> u32
        requires { l.0 < locations_in self.now.c.now.numbers }
        ensures { result ≡ queued_lane self.now.c.now.numbers self.now.x.now l.0 }
    {
        let q = self.c.line_of(l);
        let r = self.c.queue_row(q);
        let base = self.row_start(r);
        let n = self.row_len(r);
        newest(self.x, base, l.0 as u32, self.x[self.c.word_at(l)], n)
    }

    // What a load takes.
    #[tactic(auto, using(crate::proofs::rows::RowLoopLaws::row_room, crate::proofs::rows::RowLoopLaws::loaded_made))]
    pub(crate) fn loaded(&self, t: Thread, l: Location) -> u32
        requires { (t.0 < threads_in self.now.c.now.numbers)
            × (l.0 < locations_in self.now.c.now.numbers) }
        ensures { result ≡ loaded_lane self.now.c.now.numbers self.now.x.now t.0 l.0 }
    {
        let r = buffer_row(t);
        let base = self.row_start(r);
        let n = self.row_len(r);
        newest(self.x, base, l.0 as u32, self.queued(l), n)
    }

    // Does some queue hold a marker of the thread? The labels are the loops' names in the proofs. Loops and no chain:
    // document 01 names them ("goes through every queue and stops at the first one found").
    #[tactic(auto, using(crate::proofs::rows::MarkedLoopLaws::marks))]
    pub(crate) fn is_marked(&self, t: Thread) -> bool
        ensures { result ≡ marked_lanes self.now.c.now.numbers self.now.x.now t.0 }
    {
        let mark = mark_of(t);
        let mut base = self.row_start(self.c.queue_row(Line(0)));
        'queues: for q in 0..(self.c.lines() as u8) {
            let n = self.row_len(self.c.queue_row(Line(q)));
            'entries: for i in 0..n {
                if self.x[base + 2 * i] == mark {
                    return true;
                }
            }
            base += 2 * n;
        }
        false
    }
}
