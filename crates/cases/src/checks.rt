// What may be wrong with a record that opens, each fault by its name; `fault` tries them in 01's order:
// 4, 5, 8, 6, 7, 9, with 02's 10 behind 7, and for the program's record in 02's: 4, 5, 3, 8.
ghost use Rattle.std.specs.Prelude.{◌≡◌, ◌≤◌, take, drop};
ghost use Rattle.std.specs.List.{list_any};
ghost use Rattle.cases.specs.declared.record.Record.TheVariants.{Declare, First, Instruct};
ghost use Rattle.cases.specs.declared.record.Record.TheVariants.{Want, Passed, Take};
ghost use Rattle.cases.specs.Sizes.{most_locations};
ghost use Rattle.cases.specs.Choice.{refuse};
ghost use Rattle.cases.specs.Fault.{refusal_no};
ghost use Rattle.cases.specs.Lines.{unordered};
ghost use Rattle.cases.specs.Record.{line_bytes};
ghost use Rattle.cases.specs.Checks.{
  kind_rank,
  misplaced,
  disordered,
  outside,
  beyond,
  left_over,
  uses_location,
  uses_register,
  uses_word,
  header_out,
  mislisted,
  instruction_out,
  instruction_left,
  needs_register,
  sets_register,
  set_by,
  set_before,
  unset,
  passed_out,
  lines_of,
  limits_of,
  step_out,
  step_left,
  step_fault,
  count_at,
  fault_of,
};

use crate::case::{Instruction, Program, Register, Step, Thread, Write};
use crate::draft::Draft;
use crate::fault::Fault;
use crate::lines::{LAST_VERSION, is_unordered, listed_of};
use crate::operations::{
    COMPARE, EXCHANGE, FLUSH_OPT, LAST_CODE, LAST_OPERATION, LOAD, MOVE, PERSIST, STORE_REGISTER,
    STORE_WORD,
};
use crate::record::{DECLARE, FIRST, Header, INSTRUCT, NO_KIND, PASSED, Record, TAKE, WANT};
use crate::sizes::{INSTRUCTIONS, LOCATIONS, REGISTERS, STEPS, THREADS};

// Where a kind stands in the order of kinds: of two kinds that alone is compared.
#[tactic(auto, unfolding(crate::specs::Checks::kind_rank))]
fn kind_rank(kind: u16) -> u16
    ensures { result ≡ kind_rank kind }
{
    kind
}

// The program comes first and once, and kinds never go down.
#[tactic(auto, using(crate::proofs::ChoiceLaws::choices), unfolding(crate::specs::Checks::misplaced))]
fn is_misplaced(before: u16, kind: u16) -> bool
    ensures { result ≡ misplaced before kind }
{
    if before == NO_KIND {
        kind != DECLARE
    } else {
        kind == DECLARE || kind_rank(kind) < kind_rank(before)
    }
}

// The number is below the least that may come next in its kind.
#[tactic(auto, using(crate::proofs::ChoiceLaws::choices), unfolding(crate::specs::Checks::disordered))]
fn is_disordered(d: &Draft, kind: u16, number: u8) -> bool
    ensures { result ≡ disordered d.now kind number }
{
    d.kind == kind && number < d.next
}

// The number is not one from 1 to the most.
#[tactic(auto, using(crate::proofs::ChoiceLaws::choices), unfolding(crate::specs::Checks::outside))]
fn is_outside(x: u16, most: u16) -> bool
    ensures { result ≡ outside x most }
{
    x < 1 || most < x
}

// A field that is used, and has a number that there is not. Two words and no Option, here and below: the field has its
// number whether it is used or not, and `beyond` and `left_over` of specs/Checks.antt, of which 5 and 8 are made, take both.
#[tactic(auto, using(crate::proofs::ChoiceLaws::choices), unfolding(crate::specs::Checks::beyond))]
fn is_beyond(used: bool, x: u8, limit: u8) -> bool
    ensures { result ≡ beyond used x limit }
{
    used && limit <= x
}

// A field that isn't used, and is not 0.
#[tactic(auto, using(crate::proofs::ChoiceLaws::choices), unfolding(crate::specs::Checks::left_over))]
fn is_left_over(used: bool, x: u32) -> bool
    ensures { result ≡ left_over used x }
{
    !used && x != 0
}

#[tactic(auto, using(crate::proofs::ChoiceLaws::choices), unfolding(crate::specs::Checks::header_out))]
fn is_header_out(h: &Header) -> bool
    ensures { result ≡ header_out h.now }
{
    is_outside(h.version, LAST_VERSION)
        || is_outside(h.threads as u16, THREADS as u16)
        || is_outside(h.locations as u16, LOCATIONS as u16)
}

// The number of line bytes is not that version's and count's.
#[tactic(auto, using(crate::proofs::ChoiceLaws::choices), unfolding(crate::specs::Checks::mislisted))]
fn is_mislisted(h: &Header) -> bool
    ensures { result ≡ mislisted h.now }
{
    h.listed != listed_of(h.version, h.locations)
}

// Its line numbers are not in order of first appearance.
#[tactic(auto, using(crate::proofs::ChoiceLaws::choices), unfolding(crate::specs::Record::line_bytes))]
fn is_misnumbered(h: &Header) -> bool
    requires { h.now.listed ≤ most_locations }
    ensures { result ≡ unordered 0 (line_bytes h.now) }
{
    is_unordered(&h.line[..h.listed as usize])
}

#[tactic(auto, using(crate::proofs::ChoiceLaws::choices), unfolding(crate::specs::Checks::uses_location))]
fn uses_location(op: u8) -> bool
    ensures { result ≡ uses_location op }
{
    op == COMPARE || op <= FLUSH_OPT
}

#[tactic(auto, using(crate::proofs::ChoiceLaws::choices), unfolding(crate::specs::Checks::uses_register))]
fn uses_register(op: u8) -> bool
    ensures { result ≡ uses_register op }
{
    op == COMPARE || STORE_REGISTER <= op && op <= EXCHANGE
}

#[tactic(auto, using(crate::proofs::ChoiceLaws::choices), unfolding(crate::specs::Checks::uses_word))]
fn uses_word(op: u8) -> bool
    ensures { result ≡ uses_word op }
{
    op == COMPARE || op == STORE_WORD || op == EXCHANGE
}

#[tactic(auto, using(crate::proofs::ChoiceLaws::choices), unfolding(crate::specs::Checks::instruction_out))]
fn is_instruction_out(p: &Program, t: Thread, x: Instruction) -> bool
    ensures { result ≡ instruction_out p.now t x }
{
    let op = x.operation;
    p.threads <= t.0
        || is_outside(op as u16, LAST_OPERATION as u16)
        || is_beyond(uses_location(op), x.location.0, p.locations)
        || is_beyond(uses_register(op), x.register.0, REGISTERS as u8)
}

#[tactic(auto, using(crate::proofs::ChoiceLaws::choices), unfolding(crate::specs::Checks::instruction_left))]
fn is_instruction_left(x: Instruction) -> bool
    ensures { result ≡ instruction_left x }
{
    let op = x.operation;
    is_left_over(uses_location(op), x.location.0 as u32)
        || is_left_over(uses_register(op), x.register.0 as u32)
        || is_left_over(uses_word(op), x.word)
}

// How many instructions the thread has; none where there is no such thread.
pub(crate) fn count(p: &Program, t: Thread) -> u8
    ensures { result ≡ count_at p.now t.0 }
{
    p.counts.get(t.0 as usize).copied().unwrap_or(0)
}

#[tactic(auto, using(crate::proofs::ChoiceLaws::choices), unfolding(crate::specs::Checks::passed_out))]
fn is_passed_out(p: &Program, t: Thread, n: u8) -> bool
    ensures { result ≡ passed_out p.now t n }
{
    p.threads <= t.0 || count(p, t) < n
}

// It needs a word in its register: a store stores it, a compare tests it.
#[tactic(auto, using(crate::proofs::ChoiceLaws::choices), unfolding(crate::specs::Checks::needs_register))]
fn needs_register(op: u8) -> bool
    ensures { result ≡ needs_register op }
{
    op == STORE_REGISTER || op == COMPARE
}

#[tactic(auto, using(crate::proofs::ChoiceLaws::choices), unfolding(crate::specs::Checks::sets_register))]
fn sets_register(op: u8) -> bool
    ensures { result ≡ sets_register op }
{
    op == LOAD || op == EXCHANGE || op == COMPARE
}

#[tactic(auto, using(crate::proofs::ChoiceLaws::choices), unfolding(crate::specs::Checks::set_by))]
fn is_set_by(r: Register, x: Instruction) -> bool
    ensures { result ≡ set_by r.0 x }
{
    sets_register(x.operation) && x.register == r
}

// One of the n instructions from there on sets the register. A place and a count and no slice: so none is out of bounds,
// and nobody has to show it.
fn is_set_within(code: &[Instruction], at: usize, n: usize, r: Register) -> bool
    ensures { result ≡ list_any (set_by r.0) (take n (drop at code.now)) }
{
    code.iter().skip(at).take(n).any(|x| is_set_by(r, *x))
}

// One of the thread's instructions so far sets the register.
#[tactic(auto, using(crate::proofs::checks::SetLaws::set_found))]
fn is_set(p: &Program, t: Thread, r: Register) -> bool
    ensures { result ≡ set_before p.now t.0 r.0 (count_at p.now t.0) }
{
    let at = (t.0 as usize) * INSTRUCTIONS;
    is_set_within(&p.code, at, count(p, t) as usize, r)
}

// It needs a register that no instruction before it in its thread sets.
#[tactic(auto, using(crate::proofs::ChoiceLaws::choices), unfolding(crate::specs::Checks::unset))]
fn is_unset(p: &Program, t: Thread, x: Instruction) -> bool
    ensures { result ≡ unset p.now t x }
{
    needs_register(x.operation) && !is_set(p, t, x.register)
}

// How many lines the program has, each with its queue: a persist names one by its number.
#[tactic(auto, using(crate::proofs::ChoiceLaws::choices), unfolding(crate::specs::Checks::lines_of))]
pub fn lines_of(p: Program) -> u8
    ensures { result ≡ lines_of p }
{
    p.lines
}

#[tactic(auto, using(crate::proofs::ChoiceLaws::choices), unfolding(crate::specs::Checks::step_out))]
fn is_step_out(p: &Program, k: Step) -> bool
    ensures { result ≡ step_out (limits_of p.now) k }
{
    let code = k.code;
    LAST_CODE < code
        || is_beyond(code <= MOVE, k.thread.0, p.threads)
        || is_beyond(code == MOVE, k.position, INSTRUCTIONS as u8)
        || is_beyond(code == PERSIST, k.location.0, lines_of(*p))
}

#[tactic(auto, using(crate::proofs::ChoiceLaws::choices), unfolding(crate::specs::Checks::step_left))]
fn is_step_left(k: Step) -> bool
    ensures { result ≡ step_left k }
{
    let code = k.code;
    is_left_over(code <= MOVE, k.thread.0 as u32)
        || is_left_over(code == MOVE, k.position as u32)
        || is_left_over(code == PERSIST, k.location.0 as u32)
}

// 5 and 8 of a step, as for a kind 6 record, by number, since that is its promise (docs/SIGNATURES.md); `check_step` says
// them as a fault.
#[tactic(auto, using(crate::proofs::ChoiceLaws::choices), unfolding(crate::specs::Checks::step_fault))]
pub fn step_fault(p: Program, k: Step) -> u8
    ensures { result ≡ step_fault (limits_of p) k }
{
    match check_step(&p, k) {
        Ok(()) => 0,
        Err(fault) => fault.number(),
    }
}

#[tactic(auto, using(crate::proofs::ChoiceLaws::choices), unfolding(crate::specs::Checks::step_fault))]
pub fn check_step(p: &Program, k: Step) -> Result<(), Fault>
    ensures { refusal_no result ≡ step_fault (limits_of p.now) k }
{
    if is_step_out(p, k) {
        Err(Fault::Range)
    } else if is_step_left(k) {
        Err(Fault::Unused)
    } else {
        Ok(())
    }
}

// A record of a kind that may not stand there.
#[tactic(auto, using(crate::proofs::ChoiceLaws::choices), unfolding(crate::specs::Choice::refuse))]
fn check_place(d: &Draft, kind: u16) -> Result<(), Fault>
    ensures { refusal_no result ≡ refuse (misplaced d.now.kind kind) 4 0 }
{
    if is_misplaced(d.kind, kind) {
        return Err(Fault::Misplaced);
    }
    Ok(())
}

#[tactic(auto, using(crate::proofs::ChoiceLaws::choices), unfolding(crate::specs::Checks::fault_of))]
fn header_fault(d: &Draft, h: &Header) -> Result<(), Fault>
    ensures { refusal_no result ≡ fault_of d.now (Declare h.now) }
{
    check_place(d, DECLARE)?;
    if is_header_out(h) {
        return Err(Fault::Range);
    }
    if is_mislisted(h) {
        return Err(Fault::Length);
    }
    if is_misnumbered(h) {
        return Err(Fault::Unused);
    }
    Ok(())
}

#[tactic(auto, using(crate::proofs::ChoiceLaws::choices), unfolding(crate::specs::Checks::fault_of))]
fn first_fault(d: &Draft, w: Write) -> Result<(), Fault>
    ensures { refusal_no result ≡ fault_of d.now (First w) }
{
    check_place(d, FIRST)?;
    if d.case.program.locations <= w.location.0 {
        return Err(Fault::Range);
    }
    if w.word == 0 {
        return Err(Fault::Unused);
    }
    if is_disordered(d, FIRST, w.location.0) {
        return Err(Fault::Disorder);
    }
    Ok(())
}

#[tactic(auto, using(crate::proofs::ChoiceLaws::choices), unfolding(crate::specs::Checks::fault_of))]
fn instruction_fault(d: &Draft, t: Thread, x: Instruction) -> Result<(), Fault>
    ensures { refusal_no result ≡ fault_of d.now (Instruct t x) }
{
    check_place(d, INSTRUCT)?;
    let p = &d.case.program;
    if is_instruction_out(p, t, x) {
        return Err(Fault::Range);
    }
    if is_instruction_left(x) {
        return Err(Fault::Unused);
    }
    if is_disordered(d, INSTRUCT, t.0) {
        return Err(Fault::Disorder);
    }
    if (INSTRUCTIONS as u8) <= count(p, t) {
        return Err(Fault::TooMany);
    }
    if is_unset(p, t, x) {
        return Err(Fault::Unset);
    }
    Ok(())
}

#[tactic(auto, using(crate::proofs::ChoiceLaws::choices), unfolding(crate::specs::Checks::fault_of))]
fn want_fault(d: &Draft, w: Write) -> Result<(), Fault>
    ensures { refusal_no result ≡ fault_of d.now (Want w) }
{
    check_place(d, WANT)?;
    if d.case.program.locations <= w.location.0 {
        return Err(Fault::Range);
    }
    if is_disordered(d, WANT, w.location.0) {
        return Err(Fault::Disorder);
    }
    Ok(())
}

#[tactic(auto, using(crate::proofs::ChoiceLaws::choices), unfolding(crate::specs::Checks::fault_of))]
fn passed_fault(d: &Draft, t: Thread, n: u8) -> Result<(), Fault>
    ensures { refusal_no result ≡ fault_of d.now (Passed t n) }
{
    check_place(d, PASSED)?;
    if is_passed_out(&d.case.program, t, n) {
        return Err(Fault::Range);
    }
    if n == 0 {
        return Err(Fault::Unused);
    }
    if is_disordered(d, PASSED, t.0) {
        return Err(Fault::Disorder);
    }
    Ok(())
}

#[tactic(auto, using(crate::proofs::ChoiceLaws::choices), unfolding(crate::specs::Checks::fault_of, crate::specs::Checks::step_fault))]
fn taken_fault(d: &Draft, k: Step) -> Result<(), Fault>
    ensures { refusal_no result ≡ fault_of d.now (Take k) }
{
    check_place(d, TAKE)?;
    check_step(&d.case.program, k)?;
    if (STEPS as u16) <= d.case.run.count {
        return Err(Fault::TooManySteps);
    }
    Ok(())
}

// The first fault of a record behind the draft.
pub(crate) fn fault(d: &Draft, r: Record) -> Result<(), Fault>
    ensures { refusal_no result ≡ fault_of d.now r }
{
    match r {
        Record::Declare(h) => header_fault(d, &h),
        Record::First(w) => first_fault(d, w),
        Record::Instruct(t, x) => instruction_fault(d, t, x),
        Record::Want(w) => want_fault(d, w),
        Record::Passed(t, n) => passed_fault(d, t, n),
        Record::Take(k) => taken_fault(d, k),
    }
}
