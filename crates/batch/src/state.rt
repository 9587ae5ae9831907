// A state of the machine and its bytes; docs/FRAMES.md has the layout.
ghost use Rattle.std.specs.Prelude.{◌+◌, ◌*◌, ◌≤◌, length};
ghost use Rattle.batch.specs.Sizes.{state_bytes};

use crate::print::ROOM;
use cases::case::{Location, Write};
use cases::sizes::{CODE, LOCATIONS, THREADS};
use machine::cells::{Entry, State, Waiting};
use machine::sizes::{ALL_REGISTERS, SLOTS};
use machine::steps;

// Where each part begins, behind the words; a word takes 4 bytes and an entry 6.
const HELD: usize = 4 * LOCATIONS;

const MARKS: usize = HELD + 4 * SLOTS;

const LENGTHS: usize = MARKS + SLOTS;

const BUFFERS: usize = LENGTHS + LOCATIONS;

const WAITING: usize = BUFFERS + 6 * CODE;

const REGISTERS_AT: usize = WAITING + THREADS;

const ISSUED: usize = REGISTERS_AT + 4 * ALL_REGISTERS;

// A state's bytes are the first of as many as `print` takes.
pub const STATE_BYTES: usize = ISSUED + THREADS;

// An entry's kind, in its first byte.
const STORE: u8 = 0;

const FLUSH: u8 = 1;

const FLUSH_OPT: u8 = 2;

const SFENCE: u8 = 3;

fn word_at(raw: &[u8; ROOM], at: usize) -> u32
    requires { at + 4 ≤ state_bytes }
{
    u32::from_le_bytes([raw[at], raw[at + 1], raw[at + 2], raw[at + 3]])
}

fn put_word(raw: &mut [u8; ROOM], at: usize, word: u32)
    requires { at + 4 ≤ state_bytes }
{
    raw[at..at + 4].copy_from_slice(&word.to_le_bytes());
}

fn entry_at(raw: &[u8; ROOM], at: usize) -> Entry
    requires { at + 6 ≤ state_bytes }
{
    let l = Location(raw[at + 1]);
    match raw[at] % 4 {
        STORE => Entry::Store(Write {
            location: l,
            word: word_at(raw, at + 2),
        }),
        FLUSH => Entry::Flush(l),
        FLUSH_OPT => Entry::FlushOpt(l),
        _ => Entry::Sfence,
    }
}

fn put_entry(raw: &mut [u8; ROOM], at: usize, e: Entry)
    requires { at + 6 ≤ state_bytes }
{
    let (kind, l, word) = match e {
        Entry::Store(w) => (STORE, w.location, w.word),
        Entry::Flush(l) => (FLUSH, l, 0),
        Entry::FlushOpt(l) => (FLUSH_OPT, l, 0),
        Entry::Sfence => (SFENCE, Location(0), 0),
    };
    raw[at] = kind;
    raw[at + 1] = l.0;
    put_word(raw, at + 2, word);
}

// Words and entries apart, here and below: of another size and another form, and a trait for both would be longer than
// what it saves.
fn read_words(raw: &[u8; ROOM], at: usize, into: &mut [u32])
    requires { at + 4 * length into.old ≤ state_bytes }
{
    for (i, word) in into.iter_mut().enumerate() {
        *word = word_at(raw, at + 4 * i);
    }
}

// raw as a slice, here and in put_bytes: so that its length is the caller's.
fn read_bytes(raw: &[u8], at: usize, into: &mut [u8])
    requires { at + length into.old ≤ length raw.now }
{
    into.copy_from_slice(&raw[at..at + into.len()]);
}

fn read_entries(raw: &[u8; ROOM], into: &mut [Waiting; CODE]) {
    for (i, w) in into.iter_mut().enumerate() {
        w.entry = entry_at(raw, BUFFERS + 6 * i);
    }
}

// The state of those bytes. It begins as some state, of which nothing stays.
pub(crate) fn from_bytes(raw: &[u8; ROOM]) -> State {
    let mut s = steps::start_of(cases::empty_case().program);
    read_words(raw, 0, &mut s.words);
    read_words(raw, HELD, &mut s.held);
    read_bytes(raw, MARKS, &mut s.marks);
    read_bytes(raw, LENGTHS, &mut s.lengths);
    read_entries(raw, &mut s.buffers);
    read_bytes(raw, WAITING, &mut s.waiting);
    read_words(raw, REGISTERS_AT, &mut s.registers);
    read_bytes(raw, ISSUED, &mut s.issued);
    s
}

fn put_words(raw: &mut [u8; ROOM], at: usize, words: &[u32])
    requires { at + 4 * length words.now ≤ state_bytes }
{
    for (i, word) in words.iter().enumerate() {
        put_word(raw, at + 4 * i, *word);
    }
}

fn put_bytes(raw: &mut [u8], at: usize, part: &[u8])
    requires { at + length part.now ≤ length raw.old }
{
    raw[at..at + part.len()].copy_from_slice(part);
}

fn put_entries(raw: &mut [u8; ROOM], entries: &[Waiting; CODE]) {
    for (i, w) in entries.iter().enumerate() {
        put_entry(raw, BUFFERS + 6 * i, w.entry);
    }
}

// The bytes of a state, into bytes that are all 0.
pub(crate) fn to_bytes(raw: &mut [u8; ROOM], s: &State) {
    put_words(raw, 0, &s.words);
    put_words(raw, HELD, &s.held);
    put_bytes(raw, MARKS, &s.marks);
    put_bytes(raw, LENGTHS, &s.lengths);
    put_entries(raw, &s.buffers);
    put_bytes(raw, WAITING, &s.waiting);
    put_words(raw, REGISTERS_AT, &s.registers);
    put_bytes(raw, ISSUED, &s.issued);
}
