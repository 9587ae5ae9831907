// What a C program calls: the judge, its blocker, the question, and the question over distinct states, each answering
// one packed number. Document 01, "The build host", and document 02, P4 and P7; include/garluveni.h is the C face.
#![tactic(auto)]

ghost use Rattle.std.specs.Prelude.{◌≡◌, ◌^◌, ◌<◌, length};
ghost use Rattle.search.specs.Question.{shown_of};
ghost use Rattle.search.specs.Remember.{recalled_of, cleared_of};
ghost use Rattle.host.specs.Host.{packed_of, judge_packed, place_packed, blocker_packed, question_packed};
ghost use Rattle.host.specs.Host.{remember_packed, counted_packed};

use machine::blocker::Blocker;
use machine::{blocker, runs};
use search::ask;

// Packing only, by the sums of the C interface, as `packed_of` and `place_packed` of specs/Host.antt say them: what is
// packed is proved in the layers below.
fn packed(number: u8, place: usize) -> u32
    requires { place < 2 ^ 24 }
    ensures { result ≡ packed_of number place }
{
    number as u32 + 256 * (place as u32)
}

fn place_packed(b: Blocker) -> u32
    ensures { result ≡ place_packed b }
{
    let which = blocker::blocker_which(b) as u32;
    which
        + 256 * (blocker::blocker_number(b) as u32)
        + 65536 * (blocker::blocker_position(b) as u32)
}

#[unsafe(no_mangle)]
pub extern "C" fn garluveni_judge(bytes: &[u8]) -> u32
    ensures { result ≡ judge_packed bytes.now }
{
    let judged = machine::judge_bytes(bytes);
    let verdict = judged.verdict;
    packed(runs::verdict_number(verdict), runs::verdict_place(verdict))
}

// A call of its own: the judge's number stays what it was.
#[unsafe(no_mangle)]
pub extern "C" fn garluveni_blocker(bytes: &[u8]) -> u32
    ensures { result ≡ blocker_packed bytes.now }
{
    let judged = machine::judge_bytes(bytes);
    let verdict = judged.verdict;
    place_packed(runs::verdict_blocker(verdict))
}

#[unsafe(no_mangle)]
pub extern "C" fn garluveni_question(bytes: &[u8], steps: &mut [u8], budget: u32) -> u32
    ensures { (result ≡ question_packed bytes.now (length steps.old) budget)
        × (steps.new ≡ shown_of bytes.now budget steps.old) }
{
    let outcome = search::question(bytes, steps, budget);
    packed(ask::outcome_number(outcome), ask::outcome_place(outcome))
}

#[unsafe(no_mangle)]
pub extern "C" fn garluveni_remember(
    bytes: &[u8],
    steps: &mut [u8],
    memory: &mut [u32],
    budget: u32,
) -> u32
    ensures { (result ≡ remember_packed bytes.now (length steps.old)
        (length memory.old) budget)
        × (steps.new ≡ recalled_of bytes.now (length memory.old) budget steps.old)
        × (memory.new ≡ cleared_of bytes.now (length steps.old) memory.old) }
{
    let remembered = search::remember(bytes, steps, memory, budget);
    let outcome = remembered.outcome;
    packed(ask::outcome_number(outcome), ask::outcome_place(outcome))
}

// A call of its own: the number above stays what the question's is.
#[unsafe(no_mangle)]
pub extern "C" fn garluveni_remember_counting(
    bytes: &[u8],
    steps: &mut [u8],
    memory: &mut [u32],
    budget: u32,
) -> u64
    ensures { (result ≡ counted_packed bytes.now (length steps.old)
        (length memory.old) budget)
        × (steps.new ≡ recalled_of bytes.now (length memory.old) budget steps.old)
        × (memory.new ≡ cleared_of bytes.now (length steps.old) memory.old) }
{
    let remembered = search::remember(bytes, steps, memory, budget);
    let outcome = remembered.outcome;
    let number = packed(ask::outcome_number(outcome), ask::outcome_place(outcome));
    (number as u64) + 4294967296 * (remembered.states as u64)
}
