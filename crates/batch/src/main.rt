// Answers a stream of frames from standard input, a line each: how the frame's bytes read, and how the case
// that comes of them is written; how its run is judged, a single step ruled, or where it starts; or what its
// question is answered. docs/FRAMES.md has the frames and the lines; the second judge answers the same
// stream. Where standard input cannot be read the stream ends, and standard error says why.
#![tactic(auto)]

use crate::job::Job;
use crate::print::ROOM;
use cases::{reader, writer};
use input::LARGE;
use std::io;

mod asked;
mod change;
mod job;
mod print;
mod state;
mod stream;
mod trial;

ghost use Rattle.std.specs.Prelude.{◌+◌, ◌≤◌};
ghost use Rattle.batch.specs.Sizes.{most_room};

// More frames than a comparison has; a stream ends with its input.
const FRAMES: u32 = 100000000;

const HEAD: usize = 16;

// A frame of the machine begins with this number and its job; the other frames begin with a length.
const MACHINE: u32 = 2147483648;

// A number of a frame's head.
fn number_at(head: &[u8; HEAD], at: usize) -> u32
    requires { at + 4 ≤ 16 }
{
    u32::from_le_bytes([head[at], head[at + 1], head[at + 2], head[at + 3]])
}

fn answer(rt: HostRuntime, bytes: &[u8], field: usize, value: u32, room: usize) -> io::Result<()>
    requires { room ≤ most_room }
{
    let r = cases::read(bytes);
    let rest = cases::unread(bytes);
    print::number(rt, reader::number(r.answer) as usize)?;
    print::number(rt, reader::offset(r.answer))?;
    print::number(rt, rest.len())?;
    print::part(rt, rest)?;
    let mut lent = [0xA5u8; ROOM];
    let w = cases::write(change::changed(r.case, field, value), &mut lent[..room]);
    print::number(rt, writer::wrote_number(w) as usize)?;
    print::number(rt, writer::wrote_length(w))?;
    print::lent(rt, &lent[..room])?;
    print::end(rt)
}

// Answers a frame of cases; false where the stream ends in it, or is no stream of frames.
fn case_frame(rt: HostRuntime, head: &[u8; HEAD]) -> io::Result<bool> {
    let n = number_at(head, 0) as usize;
    let room = number_at(head, 12) as usize;
    if LARGE < n || ROOM < room {
        return Ok(false);
    }
    let mut lent = input::large_buffer();
    if !stream::fills(rt, &mut lent[..n])? {
        return Ok(false);
    }
    answer(
        rt,
        &lent[..n],
        number_at(head, 4) as usize,
        number_at(head, 8),
        room,
    )?;
    Ok(true)
}

// Answers a frame of the machine; false where the stream ends in it, or is no stream of frames.
fn machine_frame(rt: HostRuntime, head: &[u8; HEAD], job: Job) -> io::Result<bool> {
    let n = number_at(head, 4) as usize;
    if LARGE < n {
        return Ok(false);
    }
    let mut lent = input::large_buffer();
    if !stream::fills(rt, &mut lent[..n])? {
        return Ok(false);
    }
    trial::answer(
        rt,
        job,
        &lent[..n],
        number_at(head, 8) as usize,
        number_at(head, 12),
    )
}

// Answers one frame; false where the stream has ended.
fn frame(rt: HostRuntime) -> io::Result<bool> {
    let mut head = [0u8; HEAD];
    if !stream::fills(rt, &mut head)? {
        return Ok(false);
    }
    let first = number_at(&head, 0);
    if MACHINE <= first {
        return machine_frame(rt, &head, Job::from(first - MACHINE));
    }
    case_frame(rt, &head)
}

fn main(rt: HostRuntime) -> io::Result<()> {
    for _ in 0..FRAMES {
        if !frame(rt)? {
            return Ok(());
        }
    }
    Ok(())
}
