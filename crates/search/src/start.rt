// Where a walk starts: the lanes of a program's first state.
ghost use Rattle.std.specs.Prelude.{◌≡◌};
ghost use Rattle.cases.specs.Ranges.{ProgramFits};
ghost use Rattle.machine.specs.Rules.{start_of};
ghost use Rattle.search.specs.Lanes.{lanes_of};
ghost use Rattle.search.specs.Listing.{listing_of};
ghost use Rattle.search.specs.Taken.{padded};

use crate::listing::Listing;
use crate::sizes::LANES;
use cases::case::{Location, Program};

#[tactic(auto, using(crate::proofs::start::StartLanesLaws::begun_start, crate::proofs::start::StartLanesLaws::start_next))]
pub(crate) fn start_lanes(p: &Program, c: &Listing) -> [u32; LANES]
    requires { ProgramFits p.now × (c.now.numbers ≡ listing_of p.now) }
    ensures { result ≡ padded (lanes_of p.now (start_of p.now)) }
{
    let mut x = [0u32; LANES];
    // by number: the place of a location's word goes by it
    for l in 0..p.locations {
        x[c.word_at(Location(l))] = p.first[l as usize];
    }
    x
}
