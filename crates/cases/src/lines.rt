// Document 02, P3: on which cache line each location lies; specs/Lines.antt has the same for the definitions.
ghost use Rattle.std.specs.Prelude.{◌≡◌, ◌≤◌, length};
ghost use Rattle.cases.specs.Sizes.{most_locations};
ghost use Rattle.cases.specs.Lines.{listed_of, own_lines, new_after, unordered, lines_in};

use crate::sizes::LOCATIONS;

// The version of a file whose locations have a line each. A number and no enum: a file may hold any, which 5 refuses
// (`header_out` of specs/Checks.antt).
pub const OWN_VERSION: u16 = 1;

// The version of a file that says each location's line.
pub const LINE_VERSION: u16 = 2;

// There is no version behind it.
pub const LAST_VERSION: u16 = LINE_VERSION;

// How many line bytes the program's record has.
#[tactic(auto, using(crate::proofs::ChoiceLaws::choices), unfolding(crate::specs::Lines::listed_of))]
pub(crate) fn listed_of(version: u16, n: u8) -> u8
    ensures { result ≡ listed_of version n }
{
    if version == OWN_VERSION { 0 } else { n }
}

// A line each for so many locations.
pub(crate) fn own_lines(n: u8) -> [u8; LOCATIONS]
    requires { n ≤ most_locations }
    ensures { result ≡ own_lines n }
{
    let mut line = [0u8; LOCATIONS];
    for (l, own) in line[..n as usize].iter_mut().enumerate() {
        *own = l as u8;
    }
    line
}

// The next new line number, once x has been seen.
#[tactic(auto, using(crate::proofs::ChoiceLaws::choices), unfolding(crate::specs::Lines::new_after))]
fn new_after(next: u8, x: u8) -> u8
    requires { next ≤ most_locations }
    ensures { result ≡ new_after next x }
{
    if x == next { next + 1 } else { next }
}

// Is one of the line numbers neither one already seen nor the next new one?
pub(crate) fn is_unordered(line: &[u8]) -> bool
    requires { length line.now ≤ most_locations }
    ensures { result ≡ unordered 0 line.now }
{
    let mut next = 0;
    for x in line {
        if next < *x {
            return true;
        }
        next = new_after(next, *x);
    }
    false
}

// How many lines the line numbers name. No `fold`: its closure doesn't know the bound on `next` that `new_after` requires,
// and the loop's invariant says it.
pub(crate) fn lines_in(line: &[u8]) -> u8
    requires { length line.now ≤ most_locations }
    ensures { result ≡ lines_in 0 line.now }
{
    let mut next = 0;
    for x in line {
        next = new_after(next, *x);
    }
    next
}
