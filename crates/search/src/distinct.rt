// The question over distinct states: each is kept in lent memory, and none is gone below twice.
ghost use Rattle.std.specs.Prelude.{◌≡◌, ◌*◌, ◌≤◌, length};
ghost use Rattle.cases.specs.Ranges.{ProgramFits};
ghost use Rattle.cases.specs.Sizes.{step_size};
ghost use Rattle.machine.specs.Model.{full_length};
ghost use Rattle.machine.specs.Ptso.{ptso};
ghost use Rattle.search.specs.Sizes.{state_words};
ghost use Rattle.search.specs.Question.{reaches, shown_after};
ghost use Rattle.search.specs.Seek.{seek, walked_of, stored_of};
ghost use Rattle.search.specs.Lanes.{lanes_of};
ghost use Rattle.search.specs.Held.{AskWithin};
ghost use Rattle.search.specs.Remember.{distinct_of, covers_of, recall_for, remember_for, remember_of, recalled_of};
ghost use Rattle.search.specs.Remember.{cleared_for, cleared_of};
ghost use Rattle.search.specs.Recall.{WithinLimit, states_walked};

use crate::ask::Outcome;
use crate::listing::Listing;
use crate::sizes::STATE;
use crate::walk::Walked;
use crate::{ask, recall, start, table};
use cases::case::{Ask, Program};
use cases::reader;

// The answer, and how many distinct states there are, where all were gone through and none reaches; else 0, and no
// Option: the definition (`remember_of`) and the C interface (`garluveni_remember_counting`) have that number.
#[derive(Clone, Copy)]
pub struct Remembered {
    pub outcome: Outcome,
    pub states: u32,
}

// How many states are covered: the smaller of the budget and of what the memory has room for.
#[tactic(auto, using(crate::proofs::distinct::LimitLaws::covers_min))]
fn covers(words: usize, budget: u32) -> u32
    ensures { result ≡ covers_of words budget }
{
    (words / STATE).min(budget as usize) as u32
}

// How many were gone through, by what is left of the limit.
fn states(limit: u32, w: Walked) -> u32
    requires { WithinLimit limit w }
    ensures { result ≡ states_walked limit w }
{
    match w {
        Walked::Found(_) => 0,
        Walked::Finished(rest) => limit - rest,
        Walked::Stopped => 0,
    }
}

// The first so many distinct states of a program that the machine can run.
fn meet_all(p: &Program, a: &Ask, run: &mut [u8], memory: &mut [u32], limit: u32) -> Walked
    requires { ProgramFits p.now × AskWithin p.now a.now
        × (step_size * full_length (ptso p.now) ≤ length run.old)
        × (limit * state_words ≤ length memory.old) }
    ensures { (result ≡ walked_of 0 (seek (reaches a.now) limit (distinct_of (ptso p.now) (lanes_of p.now))))
        × (run.new ≡ stored_of 0 (seek (reaches a.now) limit (distinct_of (ptso p.now) (lanes_of p.now))) run.old) }
{
    if limit == 0 {
        return Walked::Stopped;
    }
    table::clear(memory, limit as usize);
    let c = Listing::of(p);
    let x = start::start_lanes(p, &c);
    recall::recall(&c, a, &x, limit, limit, 0, run, memory)
}

// The question of a program that the machine can run: 31, then the distinct states, then the memory cleared.
fn ask_distinct(p: &Program, a: &Ask, run: &mut [u8], memory: &mut [u32], budget: u32) -> Remembered
    requires { ProgramFits p.now × AskWithin p.now a.now }
    ensures { (result ≡ remember_for p.now a.now (length run.old) (length memory.old) budget)
        × (run.new ≡ shown_after (ptso p.now) (recall_for p.now a.now (length memory.old) budget) run.old)
        × (memory.new ≡ cleared_for p.now (length run.old) memory.old) }
{
    if ask::is_short(p, run.len()) {
        return Remembered {
            outcome: Outcome::Refused(31, 0),
            states: 0,
        };
    }
    let words = memory.len();
    let limit = covers(words, budget);
    let w = meet_all(p, a, run, memory, limit);
    table::clear(memory, words);
    Remembered {
        outcome: ask::told(w),
        states: states(limit, w),
    }
}

// The question of a case as bytes, over distinct states: reading first. Kind 6 records are read, and not looked at.
pub fn remember(bytes: &[u8], run: &mut [u8], memory: &mut [u32], budget: u32) -> Remembered
    ensures { (result ≡ remember_of bytes.now (length run.old) (length memory.old) budget)
        × (run.new ≡ recalled_of bytes.now (length memory.old) budget run.old)
        × (memory.new ≡ cleared_of bytes.now (length run.old) memory.old) }
{
    let reading = cases::read(bytes);
    let answer = reading.answer;
    let number = reader::number(answer);
    // by the number, as the definition has it: a match would have to show first that no refusal's number is 0
    if number != 0 {
        return Remembered {
            outcome: Outcome::Refused(number, reader::offset(answer)),
            states: 0,
        };
    }
    let c = &reading.case;
    ask_distinct(&c.program, &c.ask, run, memory, budget)
}
