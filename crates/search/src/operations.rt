// The operations as a listing has them, among its numbers of 32 bits: no enum, since the definitions that the code
// follows compare that number (`performed_lanes`, `entry_tag`, `entry_word`).
use cases::operations;

pub const STORE_WORD: u32 = operations::STORE_WORD as u32;

pub const STORE_REGISTER: u32 = operations::STORE_REGISTER as u32;

pub const LOAD: u32 = operations::LOAD as u32;

pub const EXCHANGE: u32 = operations::EXCHANGE as u32;

pub const FLUSH: u32 = operations::FLUSH as u32;

pub const FLUSH_OPT: u32 = operations::FLUSH_OPT as u32;

pub const MFENCE: u32 = operations::MFENCE as u32;

pub const COMPARE: u32 = operations::COMPARE as u32;
