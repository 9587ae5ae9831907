// Reading: any bytes are a case, or are refused at the first faulty record.
ghost use Rattle.std.specs.Prelude.{◌≡◌, ◌≤◌, IfOk};
ghost use Rattle.cases.specs.Sizes.{most_threads, most_locations};
ghost use Rattle.cases.specs.Fault.{fault_no, refusal_no};
ghost use Rattle.cases.specs.Checks.{fault_of};
ghost use Rattle.cases.specs.Draft.{add_of};
ghost use Rattle.cases.specs.Reading.{number_of, offset_of, refused_of, read_of, unread_of, unread_at};

use crate::case::Case;
use crate::checks::fault;
use crate::draft::{Draft, add, blank_draft, empty_case};
use crate::fault::Fault;
use crate::record::{NO_KIND, Record, open_record, opened_number, size};

// Whole: 0, and the input's length. Refused: the number, and the offset of the faulty record. An enum of its own, and a
// number in it, since the theorems speak of both: `success_whole` and `read_after_write` of proofs/Promises.antt say
// `Whole`, `unopened_decides` and `faulty_decides` say `refused_of`, the very number that `open_no` or `fault_of` says.
#[derive(Clone, Copy)]
pub enum Answer {
    Whole(usize),
    Refused(u8, usize),
}

#[derive(Clone, Copy)]
pub struct Reading {
    pub answer: Answer,
    pub case: Case,
}

pub fn number(a: Answer) -> u8
    ensures { result ≡ number_of a }
{
    match a {
        Answer::Whole(_) => 0,
        Answer::Refused(n, _) => n,
    }
}

pub fn offset(a: Answer) -> usize
    ensures { result ≡ offset_of a }
{
    match a {
        Answer::Whole(at) => at,
        Answer::Refused(_, at) => at,
    }
}

#[tactic(auto, unfolding(crate::specs::Reading::refused_of))]
fn refused(fault: Fault, at: usize) -> Reading
    ensures { result ≡ refused_of (fault_no fault) at }
{
    Reading {
        answer: Answer::Refused(fault.number(), at),
        case: empty_case(),
    }
}

// The same of what did not open: `let .. else` takes out no fault.
#[tactic(auto, unfolding(crate::specs::Reading::refused_of))]
fn unopened(opened: Result<Record, Fault>, at: usize) -> Reading
    ensures { result ≡ refused_of (refusal_no opened) at }
{
    Reading {
        answer: Answer::Refused(opened_number(opened), at),
        case: empty_case(),
    }
}

// Takes a record that opened into the draft, unless it is faulty.
fn take_record(draft: &mut Draft, r: Record) -> Result<(), Fault>
    requires { (draft.old.case.program.threads ≤ most_threads)
        × (draft.old.case.program.locations ≤ most_locations) }
    ensures number { refusal_no result ≡ fault_of draft.old r }
    ensures taken { IfOk result (λ _. draft.new ≡ add_of draft.old r) }
{
    fault(draft, r)?;
    add(draft, r);
    Ok(())
}

// Reads a case. A refusal hands out only the fixed empty one. The loop is no `for`: how far the next record is, only
// the one before says.
pub fn read(bytes: &[u8]) -> Reading
    ensures { result ≡ read_of bytes.now }
{
    let mut draft = blank_draft();
    let mut at = 0;
    while at < bytes.len() {
        let rest = &bytes[at..];
        let opened = open_record(rest);
        let Ok(record) = opened else {
            return unopened(opened, at);
        };
        if let Err(fault) = take_record(&mut draft, record) {
            return refused(fault, at);
        }
        at = at + size(rest);
    }
    if draft.kind == NO_KIND {
        return refused(Fault::Cut, at);
    }
    Reading {
        answer: Answer::Whole(at),
        case: draft.case,
    }
}

// The caller's own bytes from the faulty record on; none where all were read.
pub fn unread(bytes: &[u8]) -> &[u8]
    ensures content { result.now ≡ unread_of bytes.now }
    ensures place { result.ref_ptr ≡ unread_at bytes.entry.ref_ptr bytes.now }
{
    let r = read(bytes);
    let at = offset(r.answer);
    &bytes[at..]
}
