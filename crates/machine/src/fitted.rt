// A state beside the program that it fits, to be looked at. The looks and the rules are its methods, each beside what
// its kind of step does.
ghost use Rattle.std.specs.Prelude.{◌≡◌, ◌<◌, ◌≤◌, length};
ghost use Rattle.cases.specs.Sizes.{most_threads, most_instructions};
ghost use Rattle.machine.specs.View.{buffer, buffer_len};
ghost use Rattle.machine.specs.Fit.{Fits};

use crate::cells::{State, Waiting};
use cases::case::{Program, Thread};

// 33 is asked before one is made, and every step keeps the fit. The fit may be proved in more than one way, so it is only
// said that it is.
#[derive(Clone, Copy)]
pub(crate) struct Fitted<'a> {
    pub(crate) p: &'a Program,
    pub(crate) s: &'a State,
    ghost fits: { ∥ Fits p.now s.now ∥₁ },
}

impl<'a> Fitted<'a> {
    // What waits in a thread's buffer, oldest first.
    pub(crate) fn buffer(&self, t: Thread) -> &'a [Waiting]
        requires { t.0 < most_threads }
        ensures is { result.now ≡ buffer self.now.s.now t.0 }
        ensures many { length result.now ≡ buffer_len self.now.s.now t.0 }
        ensures few { length result.now ≤ most_instructions }
    {
        self.s.buffer(t)
    }
}
