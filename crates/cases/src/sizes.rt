// Document 01, "Sizes", and 02, P6: the most of each thing. specs/Sizes.antt has the same numbers for the definitions.

pub const THREADS: usize = 4;

pub const INSTRUCTIONS: usize = 16;

pub const LOCATIONS: usize = 16;

pub const REGISTERS: usize = 4;

pub const STEPS: usize = 192;

// All threads' instructions, one thread's behind the other's.
pub const CODE: usize = THREADS * INSTRUCTIONS;

// A step's record, in bytes.
pub const STEP_SIZE: usize = 8;

// The longest record but the program's, in bytes.
pub const SHORT_RECORD: usize = 12;

// The longest record, in bytes.
pub const LONGEST_RECORD: usize = 8 + LOCATIONS;

// The longest file, in bytes: the program; first contents and wants; instructions; passed counts; steps.
pub const LONGEST: usize = LONGEST_RECORD
    + 18 * LOCATIONS
    + SHORT_RECORD * CODE
    + 6 * THREADS
    + STEP_SIZE * STEPS;
