// The walk: all legal runs, depth first, each counted against the budget, until one reaches the question. It
// recurses on the next state, a copy that the step has changed; the work left falls at each call.
ghost use Rattle.std.specs.Prelude.{◌≡◌, suc, ◌-◌, length};
ghost use Rattle.machine.specs.Sizes.{most_work};
ghost use Rattle.search.specs.Walk as walks;
ghost use Rattle.search.specs.Seek.{seek, walked_of, stored_of};
ghost use Rattle.search.specs.Taken.{lanes_machine, reaches_lanes};
ghost use Rattle.search.specs.Held.{Held};

use crate::listing::Listing;
use crate::rows::View;
use crate::sizes::LANES;
use crate::{next, shown, taken, wants};
use cases::case::Ask;
use cases::sizes::STEP_SIZE;

// A run that reaches, with its length; or none does, and so much of the budget is left; or it is used up. Three answers,
// none of them an error: no Option or Result says it.
#[derive(Clone, Copy)]
pub enum Walked {
    Found(usize),
    Finished(u32),
    Stopped,
}

// The walk from a state that `depth` steps lead to. The run is written on the way up, and only if it reaches. `recall` has
// the same turn and stays apart: this one counts runs, that one keeps states, and no clause of their contracts is one.
pub(crate) fn walk(
    c: &Listing,
    a: &Ask,
    x: &[u32; LANES],
    budget: u32,
    depth: usize,
    run: &mut [u8],
) -> Walked
    requires { Held c.now.numbers x.now depth (length run.old) }
    ensures { (result ≡ walked_of depth (seek
        (reaches_lanes c.now.numbers a.now.wanted a.now.want a.now.passed) budget
        (walks.walk (lanes_machine c.now.numbers) (suc (most_work - depth)) x.now)))
        × (run.new ≡ stored_of depth (seek
        (reaches_lanes c.now.numbers a.now.wanted a.now.want a.now.passed) budget
        (walks.walk (lanes_machine c.now.numbers) (suc (most_work - depth)) x.now)) run.old) }
{
    if budget == 0 {
        return Walked::Stopped;
    }
    let v = View { c, x };
    if wants::is_reached(&v, a) {
        return Walked::Found(depth);
    }
    let next = next::next_steps(&v);
    let mut left = budget - 1;
    // by number: the invariant is over what stands at it, as `next_lanes` has it
    for i in 0..next.count {
        let k = next::step_at(next.ranks[i as usize]);
        let mut u = *x;
        taken::take(c, &mut u, k);
        let below = walk(c, a, &u, left, depth + 1, run);
        match below {
            Walked::Found(n) => {
                shown::put_step(run, STEP_SIZE * depth, k);
                return Walked::Found(n);
            }
            Walked::Finished(rest) => left = rest,
            Walked::Stopped => return Walked::Stopped,
        }
    }
    Walked::Finished(left)
}
