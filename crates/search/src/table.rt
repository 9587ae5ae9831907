// Keys of states in lent words: heads of chains in front, one for each state that there is room for, then the
// records, each with a link to an older one, the number of its lanes, and these. specs/Table.antt has the words.
ghost use Rattle.std.specs.Prelude.{◌≡◌, ◌+◌, ◌%◌, ◌<◌, ◌≤◌, suc, ◌++◌, ◌∷◌, length, drop, get_or, replicate};
ghost use Rattle.std.proofs.lemmas.List.Edits.{sets};
ghost use Rattle.machine.specs.View.{part};
ghost use Rattle.search.specs.Sizes.{most_lanes, record_words};
ghost use Rattle.search.specs.Remember.{eq_lanes, among};
ghost use Rattle.search.specs.Table.{key_at, keys_in, half, folded, mixed, bucket_of, Chained};

use crate::sizes::RECORD;

const HALF: u64 = 4294967296;

const MIXER: u64 = 1193077183;

// Both halves of a number of 64 bits, added, and of that the lower half.
fn fold(h: u64) -> u32
    ensures { result ≡ folded h % half }
{
    ((h % HALF + h / HALF) % HALF) as u32
}

// A number of 64 bits with a lane more mixed in: both halves and the lane, times an odd number.
#[tactic(auto, unfolding(crate::specs::Table::mixed))]
fn mix(h: u64, lane: u32) -> u64
    ensures { result ≡ mixed h lane }
{
    (h % HALF + h / HALF + (lane as u64)) * MIXER
}

// The bucket of a key. Four numbers take its lanes in turn, since each mixing waits for the one before.
#[tactic(auto, using(crate::proofs::table::MixLaws::mixed_next, crate::proofs::table::MixLaws::mixed_end))]
pub(crate) fn bucket(limit: u32, key: &[u32]) -> u32
    requires { 0 < limit }
    ensures { (result ≡ bucket_of limit key.now) × (result < limit) }
{
    let mut a: u64 = 0;
    let mut b: u64 = 1;
    let mut c: u64 = 2;
    let mut d: u64 = 3;
    for &lane in key {
        let more = mix(a, lane);
        a = b;
        b = c;
        c = d;
        d = more;
    }
    fold(mix(mix(mix(a, fold(b)), fold(c)), fold(d))) % limit
}

// Do the words from `at` on equal the key?
#[tactic(auto, using(crate::proofs::table::CompareLaws::same_lanes))]
fn is_same(memory: &[u32], at: usize, key: &[u32]) -> bool
    requires { at + length key.now ≤ length memory.now }
    ensures { result ≡ eq_lanes key.now (part at (length key.now) memory.now) }
{
    key == &memory[at..at + key.len()]
}

// Does the record at `at` hold the key?
#[tactic(auto, using(crate::proofs::table::CompareLaws::record_other, crate::proofs::table::CompareLaws::record_same))]
fn is_record(memory: &[u32], at: usize, key: &[u32]) -> bool
    requires { (at + record_words ≤ length memory.now) × (get_or memory.now (at + 1) 0 ≤ most_lanes) }
    ensures { result ≡ eq_lanes key.now (key_at memory.now at) }
{
    if (memory[at + 1] as usize) != key.len() {
        return false;
    }
    is_same(memory, at + 2, key)
}

// Is the key among those kept? b is its bucket.
pub(crate) fn is_kept(memory: &[u32], limit: u32, count: u32, b: u32, key: &[u32]) -> bool
    requires { Chained memory.now limit count × (b < limit) × (b ≡ bucket_of limit key.now) }
    ensures { result ≡ among key.now (keys_in memory.now limit count) }
{
    let mut x = memory[b as usize];
    // a chain has no count to go by
    while x != 0 {
        let at = (limit as usize) + ((x - 1) as usize) * RECORD;
        if is_record(memory, at, key) {
            return true;
        }
        x = memory[at];
    }
    false
}

// The key, from `at` on. A loop, since `copy_from_slice` is C's `memmove` here: a host brings `memcpy` and `memset` alone.
#[tactic(auto, using(crate::proofs::table::CopyLaws::copies))]
fn copy(memory: &mut [u32], at: usize, key: &[u32])
    requires { at + length key.now ≤ length memory.old }
    ensures { memory.new ≡ sets memory.old at key.now }
{
    for (i, lane) in key.iter().enumerate() {
        memory[at + i] = *lane;
    }
}

// The key as one more record, in front of its bucket's chain.
#[tactic(auto, using(crate::proofs::table::KeepLaws::kept_within, crate::proofs::table::KeepLaws::kept_length, crate::proofs::table::KeepLaws::kept))]
pub(crate) fn keep(memory: &mut [u32], limit: u32, count: u32, b: u32, key: &[u32])
    requires { Chained memory.old limit count × (count < limit) × (b < limit)
        × (b ≡ bucket_of limit key.now) × (length key.now ≤ most_lanes) }
    ensures { Chained memory.new limit (suc count)
        × (keys_in memory.new limit (suc count) ≡ key.now ∷ keys_in memory.old limit count) }
{
    let at = (limit as usize) + (count as usize) * RECORD;
    memory[at] = memory[b as usize];
    memory[at + 1] = key.len() as u32;
    copy(memory, at + 2, key);
    memory[b as usize] = count + 1;
}

// Zeros in the first n words.
pub(crate) fn clear(memory: &mut [u32], n: usize)
    requires { n ≤ length memory.old }
    ensures { memory.new ≡ replicate n 0 ++ drop n memory.old }
{
    memory[..n].fill(0);
}
