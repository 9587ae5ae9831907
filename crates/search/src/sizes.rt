// The sizes of the search's own state, the lanes; specs/Sizes.antt has the same numbers for the definitions.
use cases::sizes::{CODE, LOCATIONS, REGISTERS, THREADS};

// The most lanes of a state.
pub const LANES: usize = THREADS * (2 + REGISTERS) + 2 * LOCATIONS + 2 * CODE;

// Where the counts, the lines and the instructions stand in a listing, and how long it is.
pub const COUNTS: usize = 3;

pub const LINES: usize = COUNTS + THREADS;

pub const CODES: usize = LINES + LOCATIONS;

pub const LISTING: usize = CODES + 4 * CODE;

// The tags of a kind of entry, one for each location; the stores' come first, and are their location.
pub const TAGS: u32 = 256;

// The least tag of each kind behind the stores.
pub const FLUSH_TAG: u32 = TAGS;

pub const FLUSH_OPT_TAG: u32 = 2 * TAGS;

pub const SFENCE_TAG: u32 = 3 * TAGS;

// The lent words that a state takes in a walk that remembers, and those of its record; one more is the head of a
// bucket.
pub const STATE: usize = 192;

pub const RECORD: usize = STATE - 1;
