// The walk that remembers: as the walk, but that each state is looked up in the lent memory, kept there at its first
// meeting, and never gone below twice.
ghost use Rattle.std.specs.Prelude.{◌≡◌, ◌-◌, ◌<◌, ◌≤◌, length};
ghost use Rattle.search.specs.Seek.{walked_of, stored_of};
ghost use Rattle.search.specs.Held.{Held};
ghost use Rattle.search.specs.Table.{keys_in, Chained};
ghost use Rattle.search.specs.Recall.{met_by, key_lanes, new_from, sought_new, MetAfter, Meets};

use crate::listing::Listing;
use crate::rows::View;
use crate::sizes::LANES;
use crate::walk::Walked;
use crate::{next, shown, table, taken, wants};
use cases::case::Ask;
use cases::sizes::STEP_SIZE;

// A state was met before; it is new, and kept; it is new, and there is no room for it. Three answers, none of them an
// error: no Option or Result says it.
#[derive(Clone, Copy)]
pub enum Met {
    Before,
    New,
    Full,
}

// The lent words, limit and count stay apart here and in table.rt: that they belong together (Chained) is no proposition,
// so no struct can hold it as a ghost field, and each function would have to promise that the same words are lent.
// Looks a state up, and keeps it where it is new: `left` more have room, of `limit` in all.
#[tactic(auto, using(crate::proofs::recall::MeetLaws::meets))]
fn meet(v: &View, limit: u32, left: u32, memory: &mut [u32]) -> Met
    requires { (0 < limit) × (left ≤ limit) × Chained memory.old limit (limit - left) }
    ensures { Meets result memory.old memory.new limit left
        (key_lanes v.now.c.now.numbers v.now.x.now) }
{
    let key = &v.x[..v.pool_end()];
    let b = table::bucket(limit, key);
    if table::is_kept(memory, limit, limit - left, b, key) {
        return Met::Before;
    }
    if left == 0 {
        return Met::Full;
    }
    table::keep(memory, limit, limit - left, b, key);
    Met::New
}

// All that is new from a state that `depth` steps lead to. The run is written on the way up, and only if it reaches.
pub(crate) fn recall(
    c: &Listing,
    a: &Ask,
    x: &[u32; LANES],
    limit: u32,
    left: u32,
    depth: usize,
    run: &mut [u8],
    memory: &mut [u32],
) -> Walked
    requires { Held c.now.numbers x.now depth (length run.old) × (0 < limit) × (left ≤ limit)
        × Chained memory.old limit (limit - left) }
    ensures { (result ≡ walked_of depth (sought_new c.now.numbers a.now.wanted a.now.want
        a.now.passed depth left (keys_in memory.old limit (limit - left)) x.now))
        × (run.new ≡ stored_of depth (sought_new c.now.numbers a.now.wanted a.now.want
        a.now.passed depth left (keys_in memory.old limit (limit - left)) x.now)
        run.old)
        × MetAfter result memory.new limit
        (met_by (key_lanes c.now.numbers) (keys_in memory.old limit (limit - left))
        (new_from c.now.numbers depth (keys_in memory.old limit (limit - left)) x.now)) }
{
    let v = View { c, x };
    match meet(&v, limit, left, memory) {
        Met::Before => return Walked::Finished(left),
        Met::Full => return Walked::Stopped,
        Met::New => {}
    }
    if wants::is_reached(&v, a) {
        return Walked::Found(depth);
    }
    let next = next::next_steps(&v);
    let mut rest = left - 1;
    // by number: as the walk
    for i in 0..next.count {
        let k = next::step_at(next.ranks[i as usize]);
        let mut u = *x;
        taken::take(c, &mut u, k);
        let below = recall(c, a, &u, limit, rest, depth + 1, run, memory);
        match below {
            Walked::Found(n) => {
                shown::put_step(run, STEP_SIZE * depth, k);
                return Walked::Found(n);
            }
            Walked::Finished(more) => rest = more,
            Walked::Stopped => return Walked::Stopped,
        }
    }
    Walked::Finished(rest)
}
