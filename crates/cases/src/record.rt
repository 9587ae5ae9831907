// A record of a case: opened from bytes, and laid out as bytes.
ghost use Rattle.std.specs.Prelude.{◌≡◌, false, ◌∷◌, ◌+◌, ◌≤◌, length, IfOk};
ghost use Rattle.cases.specs.declared.record.Record.TheVariants.{Declare, Instruct};
ghost use Rattle.cases.specs.Sizes.{most_locations};
ghost use Rattle.cases.specs.Bytes.{half, word_bytes, put_over};
ghost use Rattle.cases.specs.Fault.{refusal_no};
ghost use Rattle.cases.specs.Lines.{table};
ghost use Rattle.cases.specs.Record.{
  payload_of,
  spare_of,
  mislong,
  line_byte,
  as_header,
  as_write,
  as_instruction,
  as_step,
  record_of,
  open_no,
  size_of,
  record_bytes,
};

use crate::bytes::{byte_at, half_at, half_bytes, word_at, word_bytes};
use crate::case::{Instruction, Location, Register, Step, Thread, Write};
use crate::fault::Fault;
use crate::sizes::LOCATIONS;

// `listed`: how many line bytes stand in the record; `line`: those bytes, 0 behind them. A count beside an array, since
// memory is fixed.
#[derive(Clone, Copy)]
pub struct Header {
    pub version: u16,
    pub threads: u8,
    pub locations: u8,
    pub listed: u8,
    pub line: [u8; LOCATIONS],
}

// The kinds of records, by the numbers that stand in the file. No enum: `payload_of`, `mislong` and `record_of`, by which
// `open_record` and `unopened_decides` of proofs/Promises.antt go, take whatever number stands there, and so does
// `disordered`, of the kind before it.
pub(crate) const DECLARE: u16 = 1;

pub(crate) const FIRST: u16 = 2;

pub(crate) const INSTRUCT: u16 = 3;

pub(crate) const WANT: u16 = 4;

pub(crate) const PASSED: u16 = 5;

pub(crate) const TAKE: u16 = 6;

// There is no record of that kind: it stands where no record came yet.
pub(crate) const NO_KIND: u16 = 0;

#[derive(Clone, Copy)]
pub enum Record {
    Declare(Header),
    First(Write),
    Instruct(Thread, Instruction),
    Want(Write),
    Passed(Thread, u8),
    Take(Step),
}

// How long the payload of a kind is at least; 0 where there is no such kind.
#[tactic(auto, using(crate::proofs::ChoiceLaws::choices), unfolding(crate::specs::Record::payload_of, crate::specs::Choice::pick))]
fn payload(kind: u16) -> u16
    ensures { result ≡ payload_of kind }
{
    match kind {
        DECLARE | TAKE => 4,
        FIRST | WANT => 5,
        INSTRUCT => 8,
        PASSED => 2,
        _ => 0,
    }
}

// How much longer it may be.
#[tactic(auto, using(crate::proofs::ChoiceLaws::choices), unfolding(crate::specs::Record::spare_of))]
fn spare(kind: u16) -> u16
    ensures { result ≡ spare_of kind }
{
    if kind == DECLARE { LOCATIONS as u16 } else { 0 }
}

// A payload of that kind has not so many bytes.
#[tactic(auto, using(crate::proofs::ChoiceLaws::choices), unfolding(crate::specs::Record::mislong))]
fn is_mislong(kind: u16, n: u16) -> bool
    ensures { result ≡ mislong kind n }
{
    let least = payload(kind);
    n < least || spare(kind) < n - least
}

// The line bytes of a program's record, 0 behind them.
fn as_lines(s: &[u8], n: u8) -> [u8; LOCATIONS]
    requires { n ≤ most_locations }
    ensures { result ≡ table (line_byte s.now) n }
{
    let mut line = [0u8; LOCATIONS];
    for (l, byte) in line[..n as usize].iter_mut().enumerate() {
        *byte = byte_at(s, 8 + l);
    }
    line
}

#[tactic(auto, unfolding(crate::specs::Record::as_header))]
fn as_header(s: &[u8]) -> Header
    requires { (4 ≤ half s.now 0) × (half s.now 0 ≤ 4 + most_locations) }
    ensures { result ≡ as_header s.now }
{
    let listed = (half_at(s, 0) - 4) as u8;
    Header {
        version: half_at(s, 4),
        threads: byte_at(s, 6),
        locations: byte_at(s, 7),
        listed: listed,
        line: as_lines(s, listed),
    }
}

#[tactic(auto, unfolding(crate::specs::Record::as_write))]
fn as_write(s: &[u8]) -> Write
    ensures { result ≡ as_write s.now }
{
    Write {
        location: Location(byte_at(s, 4)),
        word: word_at(s, 5),
    }
}

#[tactic(auto, unfolding(crate::specs::Record::as_instruction))]
fn as_instruction(s: &[u8]) -> Instruction
    ensures { result ≡ as_instruction s.now }
{
    Instruction {
        operation: byte_at(s, 5),
        location: Location(byte_at(s, 6)),
        register: Register(byte_at(s, 7)),
        word: word_at(s, 8),
    }
}

#[tactic(auto, unfolding(crate::specs::Record::as_step))]
fn as_step(s: &[u8]) -> Step
    ensures { result ≡ as_step s.now }
{
    Step::from([byte_at(s, 4), byte_at(s, 5), byte_at(s, 6), byte_at(s, 7)])
}

// The record of that kind whose bytes s starts with.
#[tactic(auto, using(crate::proofs::ChoiceLaws::choices), unfolding(crate::specs::Record::record_of, crate::specs::Choice::pick))]
fn decode(s: &[u8], kind: u16) -> Record
    requires { mislong kind (half s.now 0) ≡ false }
    ensures { result ≡ record_of kind s.now }
{
    match kind {
        DECLARE => Record::Declare(as_header(s)),
        FIRST => Record::First(as_write(s)),
        INSTRUCT => Record::Instruct(Thread(byte_at(s, 4)), as_instruction(s)),
        WANT => Record::Want(as_write(s)),
        PASSED => Record::Passed(Thread(byte_at(s, 4)), byte_at(s, 5)),
        _ => Record::Take(as_step(s)),
    }
}

// How long the record is that s starts with.
#[tactic(auto, unfolding(crate::specs::Record::size_of))]
pub(crate) fn size(s: &[u8]) -> usize
    ensures { result ≡ size_of s.now }
{
    4 + (half_at(s, 0) as usize)
}

// Opens the record that s starts with: 1 (head), 2, 3, 1 (payload).
#[tactic(auto, using(crate::proofs::ChoiceLaws::choices), unfolding(crate::specs::Record::open_no))]
pub(crate) fn open_record(s: &[u8]) -> Result<Record, Fault>
    ensures number { refusal_no result ≡ open_no s.now }
    ensures opened { IfOk result (λ r. r ≡ record_of (half s.now 2) s.now) }
{
    let n = s.len();
    if n < 4 {
        return Err(Fault::Cut);
    }
    let length = half_at(s, 0);
    let kind = half_at(s, 2);
    if payload(kind) == 0 {
        return Err(Fault::UnknownKind);
    }
    if is_mislong(kind, length) {
        return Err(Fault::Length);
    }
    if n - 4 < (length as usize) {
        return Err(Fault::Cut);
    }
    Ok(decode(s, kind))
}

// The number of what did not open; 0 where a record did.
pub(crate) fn opened_number(opened: Result<Record, Fault>) -> u8
    ensures { result ≡ refusal_no opened }
{
    match opened {
        Ok(_) => 0,
        Err(fault) => fault.number(),
    }
}

// Puts bytes at the front, and says how many. A record's are its payload's length and its kind, two bytes each, and its
// payload.
fn put(out: &mut [u8], bytes: &[u8]) -> usize
    requires { length bytes.now ≤ length out.old }
    ensures { (result ≡ length bytes.now) × (out.new ≡ put_over bytes.now out.old) }
{
    let n = bytes.len();
    out[..n].copy_from_slice(bytes);
    n
}

// The program's record: eight bytes, and its line bytes behind them.
fn put_header(out: &mut [u8], h: &Header) -> usize
    requires { length (record_bytes (Declare h.now)) ≤ length out.old }
    ensures { (result ≡ length (record_bytes (Declare h.now)))
        × (out.new ≡ put_over (record_bytes (Declare h.now)) out.old) }
{
    let n = h.listed.min(LOCATIONS as u8);
    let v = half_bytes(h.version);
    let end = put(
        out,
        &[
            4 + n,
            0,
            DECLARE as u8,
            0,
            v[0],
            v[1],
            h.threads,
            h.locations,
        ],
    );
    end + put(&mut out[end..], &h.line[..n as usize])
}

// A location and a word, of kind 2 or 4: the low byte of the kind's two.
fn put_write(out: &mut [u8], kind: u8, w: Write) -> usize
    requires { 9 ≤ length out.old }
    ensures { (result ≡ 9) × (out.new ≡ put_over (5 ∷ 0 ∷ kind ∷ 0 ∷ w.location.0 ∷ word_bytes w.word) out.old) }
{
    let b = word_bytes(w.word);
    put(out, &[5, 0, kind, 0, w.location.0, b[0], b[1], b[2], b[3]])
}

#[tactic(auto, unfolding(crate::specs::Record::record_bytes, crate::specs::Record::payload_bytes, crate::specs::Bytes::half_bytes, crate::specs::Bytes::word_bytes))]
fn put_instruction(out: &mut [u8], t: Thread, x: Instruction) -> usize
    requires { length (record_bytes (Instruct t x)) ≤ length out.old }
    ensures { (result ≡ length (record_bytes (Instruct t x)))
        × (out.new ≡ put_over (record_bytes (Instruct t x)) out.old) }
{
    let b = word_bytes(x.word);
    put(
        out,
        &[
            8,
            0,
            INSTRUCT as u8,
            0,
            t.0,
            x.operation,
            x.location.0,
            x.register.0,
            b[0],
            b[1],
            b[2],
            b[3],
        ],
    )
}

// Puts the record's bytes at the front, and says how many.
#[tactic(auto, unfolding(crate::specs::Record::record_bytes, crate::specs::Record::payload_bytes, crate::specs::Bytes::half_bytes, crate::specs::Bytes::word_bytes))]
pub(crate) fn put_record(out: &mut [u8], r: Record) -> usize
    requires { length (record_bytes r) ≤ length out.old }
    ensures { (result ≡ length (record_bytes r)) × (out.new ≡ put_over (record_bytes r) out.old) }
{
    match r {
        Record::Declare(h) => put_header(out, &h),
        Record::First(w) => put_write(out, FIRST as u8, w),
        Record::Instruct(t, x) => put_instruction(out, t, x),
        Record::Want(w) => put_write(out, WANT as u8, w),
        Record::Passed(t, n) => put(out, &[2, 0, PASSED as u8, 0, t.0, n]),
        Record::Take(k) => put(
            out,
            &[
                4,
                0,
                TAKE as u8,
                0,
                k.thread.0,
                k.code,
                k.position,
                k.location.0,
            ],
        ),
    }
}
