// A case as a file: a seat for each record that may stand in it, in one fixed order.
ghost use Rattle.std.specs.Prelude.{◌≡◌, ◌<◌, ◌≤◌, length};
ghost use Rattle.cases.specs.Sizes.{most_threads, most_locations, most_steps, all_code};
ghost use Rattle.cases.specs.Bytes.{put_over};
ghost use Rattle.cases.specs.Seats.{
  listed_lines,
  header_seat,
  first_seat,
  instruction_seat,
  want_seat,
  passed_seat,
  step_seat,
  seat_of,
  seats,
  encode_of,
};

use crate::case::{Ask, Case, Location, Program, Run, Thread, Write};
use crate::lines::{OWN_VERSION, listed_of};
use crate::record::{Header, Record, put_record};
use crate::sizes::{CODE, INSTRUCTIONS, LOCATIONS, STEPS, THREADS};

// Where the seats of each kind begin.
pub const FROM_FIRSTS: usize = 1;

pub const FROM_CODE: usize = FROM_FIRSTS + LOCATIONS;

pub const FROM_WANTS: usize = FROM_CODE + CODE;

pub const FROM_PASSED: usize = FROM_WANTS + LOCATIONS;

pub const FROM_STEPS: usize = FROM_PASSED + THREADS;

pub const SEATS: usize = FROM_STEPS + STEPS;

// The lines that the case's version lists, zeros where it lists none.
#[tactic(auto, using(crate::proofs::ChoiceLaws::choices), unfolding(crate::specs::Seats::listed_lines))]
fn listed_lines(c: &Case) -> [u8; LOCATIONS]
    ensures { result ≡ listed_lines c.now }
{
    if c.version == OWN_VERSION {
        [0u8; LOCATIONS]
    } else {
        c.program.line
    }
}

#[tactic(auto, using(crate::proofs::ChoiceLaws::choices), unfolding(crate::specs::Seats::header_seat))]
fn header_seat(c: &Case) -> Option<Record>
    ensures { result ≡ header_seat c.now }
{
    Some(Record::Declare(Header {
        version: c.version,
        threads: c.program.threads,
        locations: c.program.locations,
        listed: listed_of(c.version, c.program.locations),
        line: listed_lines(c),
    }))
}

#[tactic(auto, using(crate::proofs::ChoiceLaws::choices), unfolding(crate::specs::Seats::first_seat))]
fn first_seat(p: &Program, l: usize) -> Option<Record>
    requires { l < most_locations }
    ensures { result ≡ first_seat p.now l }
{
    let word = p.first[l];
    if word == 0 {
        return None;
    }
    Some(Record::First(Write {
        location: Location(l as u8),
        word: word,
    }))
}

#[tactic(auto, using(crate::proofs::ChoiceLaws::choices), unfolding(crate::specs::Seats::instruction_seat))]
fn instruction_seat(p: &Program, m: usize) -> Option<Record>
    requires { m < all_code }
    ensures { result ≡ instruction_seat p.now m }
{
    let t = m / INSTRUCTIONS;
    let i = m % INSTRUCTIONS;
    if (p.counts[t] as usize) <= i {
        return None;
    }
    Some(Record::Instruct(Thread(t as u8), p.code[m]))
}

#[tactic(auto, using(crate::proofs::ChoiceLaws::choices), unfolding(crate::specs::Seats::want_seat))]
fn want_seat(a: &Ask, l: usize) -> Option<Record>
    requires { l < most_locations }
    ensures { result ≡ want_seat a.now l }
{
    if !a.wanted[l] {
        return None;
    }
    Some(Record::Want(Write {
        location: Location(l as u8),
        word: a.want[l],
    }))
}

#[tactic(auto, using(crate::proofs::ChoiceLaws::choices), unfolding(crate::specs::Seats::passed_seat))]
fn passed_seat(a: &Ask, t: usize) -> Option<Record>
    requires { t < most_threads }
    ensures { result ≡ passed_seat a.now t }
{
    let n = a.passed[t];
    if n == 0 {
        return None;
    }
    Some(Record::Passed(Thread(t as u8), n))
}

#[tactic(auto, using(crate::proofs::ChoiceLaws::choices), unfolding(crate::specs::Seats::step_seat))]
fn step_seat(r: &Run, k: usize) -> Option<Record>
    requires { k < most_steps }
    ensures { result ≡ step_seat r.now k }
{
    if (r.count as usize) <= k {
        return None;
    }
    Some(Record::Take(r.steps[k]))
}

// The record at seat k of the case's file, where the case has one there.
#[tactic(auto, using(crate::proofs::ChoiceLaws::choices), unfolding(crate::specs::Seats::seat_of))]
fn seat_at(c: &Case, k: usize) -> Option<Record>
    requires { k < seats }
    ensures { result ≡ seat_of c.now k }
{
    match k {
        ..FROM_FIRSTS => header_seat(c),
        ..FROM_CODE => first_seat(&c.program, k - FROM_FIRSTS),
        ..FROM_WANTS => instruction_seat(&c.program, k - FROM_CODE),
        ..FROM_PASSED => want_seat(&c.ask, k - FROM_WANTS),
        ..FROM_STEPS => passed_seat(&c.ask, k - FROM_PASSED),
        _ => step_seat(&c.run, k - FROM_STEPS),
    }
}

// Puts the case's file at the front of bytes that it fits into, and says how long it is. No chain: each record is put
// where the one before ends, and of a closure that changes what it captures a proof knows nothing.
pub(crate) fn encode(c: &Case, out: &mut [u8]) -> usize
    requires { length (encode_of c.now) ≤ length out.old }
    ensures { (result ≡ length (encode_of c.now)) × (out.new ≡ put_over (encode_of c.now) out.old) }
{
    let mut at = 0;
    for k in 0..SEATS {
        if let Some(r) = seat_at(c, k) {
            at = at + put_record(&mut out[at..], r);
        }
    }
    at
}
