// Document 01, "Operations" and "Step codes", and 02's ninth operation: their numbers, here and nowhere else of the
// code; specs/Operations.antt has the same for the definitions.

pub const STORE_WORD: u8 = 1;

pub const STORE_REGISTER: u8 = 2;

pub const LOAD: u8 = 3;

pub const EXCHANGE: u8 = 4;

pub const FLUSH: u8 = 5;

pub const FLUSH_OPT: u8 = 6;

pub const SFENCE: u8 = 7;

pub const MFENCE: u8 = 8;

pub const COMPARE: u8 = 9;

// There is no operation behind it.
pub const LAST_OPERATION: u8 = COMPARE;

pub const ISSUE: u8 = 0;

pub const MOVE: u8 = 1;

pub const PERSIST: u8 = 2;

// There is no step code behind it.
pub const LAST_CODE: u8 = PERSIST;
