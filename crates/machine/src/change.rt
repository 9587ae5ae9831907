// What a step changes of a state: an entry joins the end of a queue, or is taken out of a row of them.
ghost use Rattle.std.specs.Prelude.{◌≡◌, ◌<◌, ◌≤◌, length};
ghost use Rattle.cases.specs.Sizes.{most_locations};
ghost use Rattle.machine.specs.Sizes.{room};
ghost use Rattle.machine.specs.View.{close_gap, queue_len};
ghost use Rattle.machine.specs.Rules as rules;

use crate::cells::State;
use crate::sizes::ROOM;
use cases::case::Line;

// An entry at the end of a queue.
pub(crate) fn enqueue(s: State, q: Line, word: u32, mark: u8) -> State
    requires { (q.0 < most_locations) × (queue_len s q.0 < room) }
    ensures { result ≡ rules.enqueue s q.0 (record { word = word; mark = mark }) }
{
    let mut u = s;
    let at = q.0 as usize;
    let n = u.lengths[at];
    let end = at * ROOM + (n as usize);
    u.held[end] = word;
    u.marks[end] = mark;
    u.lengths[at] = n + 1;
    u
}

// The elements behind `from`, up to `end`, each one down, and the last of them blank.
#[tactic(auto, using(crate::proofs::lists::PutLaws::shift_is), unfolding(crate::specs::View::close_gap))]
pub(crate) fn close<T: Copy>(row: &mut [T], from: usize, end: usize, blank: T)
    requires { (from < end) × (end ≤ length row.old) }
    ensures { row.new ≡ close_gap blank from end row.old }
{
    row.copy_within(from + 1..end, from);
    row[end - 1] = blank;
}
