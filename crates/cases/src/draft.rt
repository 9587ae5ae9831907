// A case while it is read: the empty case at first, and a record more at each turn.
ghost use Rattle.std.specs.Prelude.{◌≡◌, ◌<◌, ◌≤◌};
ghost use Rattle.cases.specs.declared.record.Record.TheVariants.{Declare, First, Instruct};
ghost use Rattle.cases.specs.declared.record.Record.TheVariants.{Want, Passed, Take};
ghost use Rattle.cases.specs.Sizes.{most_threads, most_instructions, most_locations, most_steps};
ghost use Rattle.cases.specs.Checks.{count_at, fault_of};
ghost use Rattle.cases.specs.Draft.{empty_case, line_table, line_count, blank_draft, add_of};

use crate::case::{Ask, Case, Instruction, Location, Program, Register, Run, Step, Thread, Write};
use crate::lines::{OWN_VERSION, lines_in, own_lines};
use crate::record::{DECLARE, FIRST, Header, INSTRUCT, NO_KIND, PASSED, Record, TAKE, WANT};
use crate::sizes::{CODE, INSTRUCTIONS, LOCATIONS, STEPS, THREADS};

// The case so far, the kind of the record before, and the least number that may come next in that kind. The kind is
// a number, 0 where none came: so speak of it `record_is_behind` and `end_behind_a_record_succeeds` of
// proofs/Promises.antt.
#[derive(Clone, Copy)]
pub struct Draft {
    pub case: Case,
    pub kind: u16,
    pub next: u8,
}

// The fixed empty case: one thread, one location, no further records.
#[tactic(auto, unfolding(crate::specs::Draft::empty_case))]
pub fn empty_case() -> Case
    ensures { result ≡ empty_case }
{
    let none = Instruction {
        operation: 0,
        location: Location(0),
        register: Register(0),
        word: 0,
    };
    let still = Step {
        thread: Thread(0),
        code: 0,
        position: 0,
        location: Location(0),
    };
    Case {
        version: OWN_VERSION,
        program: Program {
            threads: 1,
            locations: 1,
            lines: 1,
            line: [0u8; LOCATIONS],
            first: [0u32; LOCATIONS],
            counts: [0u8; THREADS],
            code: [none; CODE],
        },
        ask: Ask {
            wanted: [false; LOCATIONS],
            want: [0u32; LOCATIONS],
            passed: [0u8; THREADS],
        },
        run: Run {
            count: 0,
            steps: [still; STEPS],
        },
    }
}

#[tactic(auto, unfolding(crate::specs::Draft::blank_draft))]
pub(crate) fn blank_draft() -> Draft
    ensures { result ≡ blank_draft }
{
    Draft {
        case: empty_case(),
        kind: NO_KIND,
        next: 0,
    }
}

// On which line each location lies, as the record of the program says.
#[tactic(auto, using(crate::proofs::ChoiceLaws::choices), unfolding(crate::specs::Draft::line_table))]
fn line_table(h: &Header) -> [u8; LOCATIONS]
    requires { h.now.locations ≤ most_locations }
    ensures { result ≡ line_table h.now }
{
    if h.version == OWN_VERSION {
        own_lines(h.locations)
    } else {
        h.line
    }
}

#[tactic(auto, using(crate::proofs::ChoiceLaws::choices), unfolding(crate::specs::Draft::line_count, crate::specs::Record::line_bytes))]
fn line_count(h: &Header) -> u8
    requires { h.now.listed ≤ most_locations }
    ensures { result ≡ line_count h.now }
{
    if h.version == OWN_VERSION {
        h.locations
    } else {
        lines_in(&h.line[..h.listed as usize])
    }
}

#[tactic(auto, unfolding(crate::specs::Draft::add_of, crate::specs::Draft::with_header, crate::specs::Draft::with_sizes))]
fn add_header(d: &mut Draft, h: &Header)
    requires { (h.now.locations ≤ most_locations) × (h.now.listed ≤ most_locations) }
    ensures { d.new ≡ add_of d.old (Declare h.now) }
{
    d.case.version = h.version;
    d.case.program.threads = h.threads;
    d.case.program.locations = h.locations;
    d.case.program.lines = line_count(h);
    d.case.program.line = line_table(h);
    d.kind = DECLARE;
    d.next = 0;
}

#[tactic(auto, unfolding(crate::specs::Draft::add_of, crate::specs::Draft::with_program, crate::specs::Draft::with_first))]
fn add_first(d: &mut Draft, w: Write)
    requires { w.location.0 < most_locations }
    ensures { d.new ≡ add_of d.old (First w) }
{
    let l = w.location.0;
    d.case.program.first[l as usize] = w.word;
    d.kind = FIRST;
    d.next = l + 1;
}

#[tactic(auto, unfolding(crate::specs::Draft::add_of, crate::specs::Draft::with_program, crate::specs::Draft::with_instruction))]
fn add_instruction(d: &mut Draft, t: Thread, x: Instruction)
    requires { (t.0 < most_threads) × (count_at d.old.case.program t.0 < most_instructions) }
    ensures { d.new ≡ add_of d.old (Instruct t x) }
{
    let at = t.0 as usize;
    let n = d.case.program.counts[at];
    d.case.program.counts[at] = n + 1;
    d.case.program.code[at * INSTRUCTIONS + (n as usize)] = x;
    d.kind = INSTRUCT;
    d.next = t.0;
}

#[tactic(auto, unfolding(crate::specs::Draft::add_of, crate::specs::Draft::with_ask, crate::specs::Draft::with_want))]
fn add_want(d: &mut Draft, w: Write)
    requires { w.location.0 < most_locations }
    ensures { d.new ≡ add_of d.old (Want w) }
{
    let l = w.location.0;
    d.case.ask.wanted[l as usize] = true;
    d.case.ask.want[l as usize] = w.word;
    d.kind = WANT;
    d.next = l + 1;
}

#[tactic(auto, unfolding(crate::specs::Draft::add_of, crate::specs::Draft::with_ask, crate::specs::Draft::with_passed))]
fn add_passed(d: &mut Draft, t: Thread, n: u8)
    requires { t.0 < most_threads }
    ensures { d.new ≡ add_of d.old (Passed t n) }
{
    d.case.ask.passed[t.0 as usize] = n;
    d.kind = PASSED;
    d.next = t.0 + 1;
}

#[tactic(auto, unfolding(crate::specs::Draft::add_of, crate::specs::Draft::with_run, crate::specs::Draft::with_step))]
fn add_step(d: &mut Draft, k: Step)
    requires { d.old.case.run.count < most_steps }
    ensures { d.new ≡ add_of d.old (Take k) }
{
    let n = d.case.run.count;
    d.case.run.steps[n as usize] = k;
    d.case.run.count = n + 1;
    d.kind = TAKE;
    d.next = 0;
}

// Puts a faultless record behind the draft.
#[tactic(auto, using(crate::proofs::draft::DraftLaws::first_seated, crate::proofs::draft::DraftLaws::instruction_seated, crate::proofs::draft::DraftLaws::want_seated, crate::proofs::draft::DraftLaws::passed_seated, crate::proofs::draft::DraftLaws::step_seated, crate::proofs::draft::DraftLaws::header_sizes))]
pub(crate) fn add(d: &mut Draft, r: Record)
    requires { (d.old.case.program.threads ≤ most_threads)
        × (d.old.case.program.locations ≤ most_locations)
        × (fault_of d.old r ≡ 0) }
    ensures { d.new ≡ add_of d.old r }
{
    match r {
        Record::Declare(h) => add_header(d, &h),
        Record::First(w) => add_first(d, w),
        Record::Instruct(t, x) => add_instruction(d, t, x),
        Record::Want(w) => add_want(d, w),
        Record::Passed(t, n) => add_passed(d, t, n),
        Record::Take(k) => add_step(d, k),
    }
}
