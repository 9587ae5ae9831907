// The sizes that follow from those of a case; specs/Sizes.antt has the same numbers for the definitions.
use cases::sizes::{CODE, LOCATIONS, REGISTERS, THREADS};

// The most entries of a queue: every instruction of every thread.
pub const ROOM: usize = CODE;

// All queues' slots, one queue's behind the other's.
pub const SLOTS: usize = LOCATIONS * ROOM;

// All threads' registers, one thread's behind the other's.
pub const ALL_REGISTERS: usize = THREADS * REGISTERS;

// The steps that a state can have next.
pub const CANDIDATES: usize = THREADS + CODE + LOCATIONS;

// The ranks that a kind of step takes up in the order of steps.
pub const RANKS: usize = CODE + LOCATIONS;

// The least mark of a marker; below it a mark is a write's location.
pub const MARKER: u8 = 128;
