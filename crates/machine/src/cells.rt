// The machine's state: what it is made of.
ghost use Rattle.std.specs.Prelude.{◌≡◌, ◌<◌, ◌≤◌, length};
ghost use Rattle.cases.specs.Sizes.{most_threads, most_instructions, most_locations};
ghost use Rattle.machine.specs.Sizes.{room};
ghost use Rattle.machine.specs.View.{marks_in, queue_len, buffer, buffer_len};

use crate::sizes::{ALL_REGISTERS, ROOM, SLOTS};
use cases::case::{Line, Location, Thread, Write};
use cases::sizes::{CODE, INSTRUCTIONS, LOCATIONS, THREADS};

// An entry that waits in a store buffer.
#[derive(Clone, Copy)]
pub enum Entry {
    Store(Write),
    Flush(Location),
    FlushOpt(Location),
    Sfence,
}

// A struct of one enum, as docs/FORMS.md has it of 01: "Each waiting entry in a store buffer is one of four kinds".
#[derive(Clone, Copy)]
pub struct Waiting {
    pub entry: Entry,
}

// What stands where no entry waits.
pub(crate) const BLANK: Waiting = Waiting {
    entry: Entry::Store(Write {
        location: Location(0),
        word: 0,
    }),
};

// Line q's queue holds the first lengths[q] slots from q * ROOM on, a slot a word and a mark side by side: the
// mark of a write is its location, that of a marker MARKER and its thread. Buffer t holds the first waiting[t]
// entries from t * INSTRUCTIONS on, and register r of thread t stands at t * REGISTERS + r.
// Counts beside arrays: memory is fixed. Arrays side by side, and a mark that is one number: `queue_marks` of
// proofs/Promises.antt, `issue_registers` of proofs/Effects.antt and the bytes in docs/FRAMES.md speak of them.
#[derive(Clone, Copy)]
pub struct State {
    pub words: [u32; LOCATIONS],
    pub held: [u32; SLOTS],
    pub marks: [u8; SLOTS],
    pub lengths: [u8; LOCATIONS],
    pub buffers: [Waiting; CODE],
    pub waiting: [u8; THREADS],
    pub registers: [u32; ALL_REGISTERS],
    pub issued: [u8; THREADS],
}

impl State {
    // What waits in a thread's buffer, oldest first.
    pub(crate) fn buffer(&self, t: Thread) -> &[Waiting]
        requires { (t.0 < most_threads) × (buffer_len self.now t.0 ≤ most_instructions) }
        ensures is { result.now ≡ buffer self.now t.0 }
        ensures many { length result.now ≡ buffer_len self.now t.0 }
        ensures few { length result.now ≤ most_instructions }
    {
        let base = (t.0 as usize) * INSTRUCTIONS;
        let n = self.waiting[t.0 as usize] as usize;
        &self.buffers[base..base + n]
    }

    // The marks in a line's queue, oldest first.
    pub(crate) fn queued(&self, q: Line) -> &[u8]
        requires { (q.0 < most_locations) × (queue_len self.now q.0 ≤ room) }
        ensures is { result.now ≡ marks_in self.now.marks self.now.lengths q.0 }
        ensures many { length result.now ≡ queue_len self.now q.0 }
        ensures few { length result.now ≤ room }
    {
        let base = (q.0 as usize) * ROOM;
        let n = self.lengths[q.0 as usize] as usize;
        &self.marks[base..base + n]
    }
}
