// The rules of document 01 that a step can break; specs/Rules.antt quotes each where it is said.
ghost use Rattle.std.specs.Prelude.{◌≡◌};
ghost use Rattle.machine.specs.Rules.{rule_number};

#[derive(Clone, Copy, PartialEq, Eq)]
pub enum Rule {
    // Issue: the thread has no instruction left.
    NothingToIssue = 21,
    // Exchange, compare or mfence: something waits in the own buffer.
    BufferNotEmpty = 22,
    // The same three: a queue holds a marker of the thread.
    MarkerQueued = 23,
    // Move: nothing waits at that position.
    NothingThere = 24,
    // What goes before others is no flush-opt.
    OnlyFlushOpt = 25,
    // A flush-opt: an entry before it keeps it back.
    HeldBack = 26,
    // A flush: its line's queue holds something.
    LineNotEmpty = 27,
    // An sfence: a queue holds a marker of the thread.
    MarkerBeforeSfence = 28,
    // Persist: the queue is empty.
    NothingQueued = 29,
}

impl Rule {
    // 01's number of it.
    pub(crate) fn number(self) -> u8
        ensures { result ≡ rule_number self }
    {
        self as u8
    }
}
