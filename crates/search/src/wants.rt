// Does a state meet what is asked for? All of it is lent: the walk asks at each state.
ghost use Rattle.std.specs.Prelude.{◌≡◌};
ghost use Rattle.machine.specs.Fit.{any_from};
ghost use Rattle.search.specs.Question as question;
ghost use Rattle.search.specs.Question.{lacks_at};
ghost use Rattle.search.specs.Listing.{threads_in, locations_in};
ghost use Rattle.search.specs.Taken.{misses_lane, reaches_lanes};

use crate::rows::View;
use cases::case::{Ask, Location};

// Does a location hold another word than is wanted there? The flag beside the word is `Ask`'s, which says why.
#[tactic(auto, using(cases::proofs::ChoiceLaws::choices), unfolding(crate::specs::Question::misses))]
fn misses(wanted: bool, want: u32, word: u32) -> bool
    ensures { result ≡ question.misses wanted want word }
{
    wanted && word != want
}

// Does some location?
#[tactic(auto, using(crate::proofs::wants::WantLoopLaws::missed))]
fn is_missed(v: &View, a: &Ask) -> bool
    ensures { result ≡ any_from 0 (locations_in v.now.c.now.numbers)
        (misses_lane v.now.c.now.numbers a.now.wanted a.now.want v.now.x.now) }
{
    for l in 0..(v.c.locations() as u8) {
        let at = l as usize;
        if misses(a.wanted[at], a.want[at], v.x[v.c.word_at(Location(l))]) {
            return true;
        }
    }
    false
}

// Has some thread issued fewer instructions than asked for? A loop, here and in `is_missed` and `is_barred`:
// tried as `(0..threads).any(..)`, the check did not find what it answers over a count that a call gave.
#[tactic(auto, using(crate::proofs::wants::WantLoopLaws::lacked))]
fn is_lacking(v: &View, a: &Ask) -> bool
    ensures { result ≡ any_from 0 (threads_in v.now.c.now.numbers) (lacks_at a.now.passed v.now.x.now) }
{
    for t in 0..(v.c.threads() as u8) {
        let at = t as usize;
        if v.x[at] < (a.passed[at] as u32) {
            return true;
        }
    }
    false
}

// Does a crash in this state leave what is asked for, with what is asked for issued?
#[tactic(auto, using(cases::proofs::ChoiceLaws::choices), unfolding(crate::specs::Taken::reaches_lanes))]
pub(crate) fn is_reached(v: &View, a: &Ask) -> bool
    ensures { result
        ≡ reaches_lanes v.now.c.now.numbers a.now.wanted a.now.want a.now.passed
        v.now.x.now }
{
    !is_missed(v, a) && !is_lacking(v, a)
}
