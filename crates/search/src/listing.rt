// A program as one list of numbers, its listing: made once for a question, lent from then on, and where each thing of it
// stands, among its own numbers and among a state's lanes. Numbers and not the program itself: a look reads one array,
// of 32 bits as lanes are, at an index that is computed once, and widens no byte (the walk over lanes and listings is
// measured in docs/BENCHMARKS.md, "With lanes"); `legal_is`, `step_lanes_lem` and `walk_lanes` speak of it too.
ghost use Rattle.std.specs.Prelude.{◌≡◌, ◌+◌, ◌*◌, ◌<◌, ◌≤◌, length, get_or};
ghost use Rattle.std.proofs.lemmas.List.Edits.{sets};
ghost use Rattle.cases.specs.Sizes.{all_code, most_threads, most_instructions, most_registers};
ghost use Rattle.cases.specs.Ranges.{ProgramFits};
ghost use Rattle.search.specs.Sizes.{codes_at, all_listing};
ghost use Rattle.search.specs.Lanes.{join_to};
ghost use Rattle.search.specs.Listing.{instruction_numbers, listing_of, threads_in, lines_in, locations_in, line_in};
ghost use Rattle.search.specs.Listing.{code_at, ListingFits};
ghost use Rattle.search.specs.Rows.{rows_in, queue_row, row_len_at, word_at, register_at, pool_at};

use crate::rows::Row;
use crate::sizes::{CODES, COUNTS, LINES, LISTING};
use cases::case::{Instruction, Line, Location, Program, Register, Thread};
use cases::sizes::{CODE, INSTRUCTIONS, LOCATIONS, REGISTERS};

// Made by `of` alone. Elsewhere its numbers are read only for an instruction and for how many a thread has.
#[derive(Drop)]
pub struct Listing {
    pub numbers: [u32; LISTING],
    ghost fits: { ListingFits numbers },
}

// Some numbers, from a place on.
#[tactic(auto, using(crate::proofs::listing::ListingLoopLaws::numbers_next))]
fn put_numbers(c: &mut [u32; LISTING], at: usize, numbers: &[u8])
    requires { at + length numbers.now ≤ all_listing }
    ensures { c.new ≡ sets c.old at numbers.now }
{
    for (i, n) in numbers.iter().enumerate() {
        c[at + i] = *n as u32;
    }
}

// All instructions, four numbers each.
#[tactic(auto, using(crate::proofs::listing::ListingLoopLaws::codes_start, crate::proofs::listing::ListingLoopLaws::codes_next))]
fn put_code(c: &mut [u32; LISTING], code: &[Instruction; CODE])
    ensures { c.new ≡ sets c.old codes_at (join_to all_code (instruction_numbers code.now)) }
{
    for (i, x) in code.iter().enumerate() {
        let at = CODES + 4 * i;
        c[at] = x.operation as u32;
        c[at + 1] = x.location.0 as u32;
        c[at + 2] = x.register.0 as u32;
        c[at + 3] = x.word;
    }
}

// Where an instruction stands.
pub(crate) fn code_at(t: Thread, i: usize) -> usize
    requires { (t.0 < most_threads) × (i < most_instructions) }
    ensures { result ≡ code_at t.0 i }
{
    CODES + 4 * ((t.0 as usize) * INSTRUCTIONS + i)
}

impl Listing {
    pub(crate) fn of(p: &Program) -> Listing
        requires { ProgramFits p.now }
        ensures { result.numbers ≡ listing_of p.now }
    {
        let mut numbers = [0u32; LISTING];
        numbers[0] = p.threads as u32;
        numbers[1] = p.lines as u32;
        numbers[2] = p.locations as u32;
        put_numbers(&mut numbers, COUNTS, &p.counts);
        put_numbers(&mut numbers, LINES, &p.line);
        put_code(&mut numbers, &p.code);
        Listing { numbers }
    }

    // Sizes, since most sums here are of places; a loop over threads or lines makes a byte of one, once, for `Thread` or
    // `Line`.
    pub(crate) fn threads(&self) -> usize
        ensures { result ≡ threads_in self.now.numbers }
    {
        self.numbers[0] as usize
    }

    pub(crate) fn lines(&self) -> usize
        ensures { result ≡ lines_in self.now.numbers }
    {
        self.numbers[1] as usize
    }

    pub(crate) fn locations(&self) -> usize
        ensures { result ≡ locations_in self.now.numbers }
    {
        self.numbers[2] as usize
    }

    // How many rows of entries a state has: one for each thread's buffer, one for each line's queue.
    pub(crate) fn rows(&self) -> usize
        ensures { result ≡ rows_in self.now.numbers }
    {
        self.threads() + self.lines()
    }

    // The line that a location lies on; 0 for a location that no program has.
    pub(crate) fn line_of(&self, l: Location) -> Line
        ensures { result.0 ≡ line_in self.now.numbers l.0 }
    {
        let at = l.0 as usize;
        if LOCATIONS <= at {
            return Line(0);
        }
        Line(self.numbers[LINES + at] as u8)
    }

    pub(crate) fn queue_row(&self, q: Line) -> Row
        ensures { result.0 ≡ queue_row self.now.numbers q.0 }
    {
        Row(self.threads() + (q.0 as usize))
    }

    // Where a row's length stands.
    pub(crate) fn row_len_at(&self, r: Row) -> usize
        requires { r.0 < rows_in self.now.numbers }
        ensures { result ≡ row_len_at self.now.numbers r.0 }
    {
        self.threads() + r.0
    }

    // Where a location's word stands.
    pub(crate) fn word_at(&self, l: Location) -> usize
        ensures { result ≡ word_at self.now.numbers l.0 }
    {
        self.threads() + self.rows() + (l.0 as usize)
    }

    // Where a register of a thread stands.
    pub(crate) fn register_at(&self, t: Thread, r: Register) -> usize
        ensures { result ≡ register_at self.now.numbers t.0 r.0 }
    {
        self.threads()
            + self.rows()
            + self.locations()
            + ((t.0 as usize) * REGISTERS + (r.0 as usize))
    }

    // The location of the instruction that stands at a place.
    pub(crate) fn location_at(&self, at: usize) -> Location
        requires { (at + 4 ≤ all_listing)
            × (get_or self.now.numbers (at + 1) 0 < locations_in self.now.numbers) }
        ensures { result.0 ≡ get_or self.now.numbers (at + 1) 0 }
    {
        Location(self.numbers[at + 1] as u8)
    }

    // Where its register stands, of a thread.
    pub(crate) fn target_at(&self, t: Thread, at: usize) -> usize
        requires { (at + 4 ≤ all_listing) × (get_or self.now.numbers (at + 2) 0 < most_registers) }
        ensures { result ≡ register_at self.now.numbers t.0 (get_or self.now.numbers (at + 2) 0) }
    {
        self.register_at(t, Register(self.numbers[at + 2] as u8))
    }

    // Where the rows start.
    pub(crate) fn pool_at(&self) -> usize
        ensures { result ≡ pool_at self.now.numbers }
    {
        self.threads() + self.rows() + self.locations() + self.threads() * REGISTERS
    }
}
