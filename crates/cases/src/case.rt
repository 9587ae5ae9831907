// A case in memory, in three parts by value, and what its parts are made of.
ghost use Rattle.std.specs.Prelude.{◌≡◌};
ghost use Rattle.cases.specs.Record.{step_from};

use crate::sizes::{CODE, LOCATIONS, STEPS, THREADS};

// A number of one kind can't be passed for one of another. Any byte may stand in it, so that what needs one below the
// most says so in its contract: a step in memory may name a thread that there is not, and `step_fault` then says 5.
#[derive(Clone, Copy, PartialEq, Eq)]
pub struct Thread(pub u8);

#[derive(Clone, Copy, PartialEq, Eq)]
pub struct Location(pub u8);

#[derive(Clone, Copy, PartialEq, Eq)]
pub struct Register(pub u8);

// A cache line's number, and its queue's.
#[derive(Clone, Copy, PartialEq, Eq)]
pub struct Line(pub u8);

#[derive(Clone, Copy, PartialEq, Eq)]
pub struct Write {
    pub location: Location,
    pub word: u32,
}

// The record's own fields: what the operation doesn't use is 0. An operation is a byte and no enum, a step's code too:
// a case in memory may hold any, which 32 refuses, and `InstructionFits` of specs/Ranges.antt compares it.
#[derive(Clone, Copy, PartialEq, Eq)]
pub struct Instruction {
    pub operation: u8,
    pub location: Location,
    pub register: Register,
    pub word: u32,
}

// The record's own fields: what the code doesn't use is 0.
#[derive(Clone, Copy, PartialEq, Eq)]
pub struct Step {
    pub thread: Thread,
    pub code: u8,
    pub position: u8,
    pub location: Location,
}

// The bytes of a step, in the order in which they stand wherever one is told in bytes.
impl From<[u8; 4]> for Step {
    ghost from_gives = { λ b k. k ≡ step_from b };

    fn from([thread, code, position, location]: [u8; 4]) -> Step {
        Step {
            thread: Thread(thread),
            code,
            position,
            location: Location(location),
        }
    }
}

// Location l lies on line line[l]; behind the program's locations that is 0. Instruction i of thread t stands at
// t * INSTRUCTIONS + i; a location without a first content holds 0. Counts beside arrays, since memory is fixed:
// `count_at` and `instruction_at` of specs/Checks.antt, of which the layers' theorems speak, read them so.
#[derive(Clone, Copy, PartialEq, Eq)]
pub struct Program {
    pub threads: u8,
    pub locations: u8,
    pub lines: u8,
    pub line: [u8; LOCATIONS],
    pub first: [u32; LOCATIONS],
    pub counts: [u8; THREADS],
    pub code: [Instruction; CODE],
}

// A want has a flag, since not wanted is not wanted 0; a thread without a passed count has 0. The flags are an array of
// their own, no Option: `not_wanted_differs` of proofs/Promises.antt speaks of them.
#[derive(Clone, Copy, PartialEq, Eq)]
pub struct Ask {
    pub wanted: [bool; LOCATIONS],
    pub want: [u32; LOCATIONS],
    pub passed: [u8; THREADS],
}

// A count beside an array, since memory is fixed: `run_is` of proofs/Promises.antt reads it so.
#[derive(Clone, Copy, PartialEq, Eq)]
pub struct Run {
    pub count: u16,
    pub steps: [Step; STEPS],
}

// The version is the file's alone: no layer above looks at it.
#[derive(Clone, Copy, PartialEq, Eq)]
pub struct Case {
    pub version: u16,
    pub program: Program,
    pub ask: Ask,
    pub run: Run,
}
