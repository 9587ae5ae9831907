// What the answers are made of: numbers, and bytes in hex.
ghost use Rattle.std.specs.Prelude.{◌≤◌, ◌<◌, length};
ghost use Rattle.batch.specs.Sizes.{most_room};

use std::io;
use std::io::Print;

// The most bytes that are printed at once.
pub const ROOM: usize = 8192;

// Two digits for each.
const TEXT: usize = 2 * ROOM;

// By hand: a format for each byte would write each by a call of its own.
fn glyph(digit: u8) -> u8
    requires { digit < 16 }
{
    if digit < 10 {
        b'0' + digit
    } else {
        b'a' + (digit - 10)
    }
}

// Bytes in hex, two digits each: a format for each would write each by a call of its own.
fn bytes(rt: HostRuntime, part: &[u8]) -> io::Result<()>
    requires { length part.now ≤ most_room }
{
    let mut text = [0u8; TEXT];
    for (i, b) in part.iter().enumerate() {
        text[2 * i] = glyph(b / 16);
        text[2 * i + 1] = glyph(b % 16);
    }
    rt.write_all(&text[..2 * part.len()])
}

// A part of a line: any number of bytes, or `-` where there are none.
pub(crate) fn part(rt: HostRuntime, rest: &[u8]) -> io::Result<()> {
    if rest.is_empty() {
        print!(rt; "-")?;
    }
    for some in rest.chunks(ROOM) {
        bytes(rt, some)?;
    }
    print!(rt; " ")
}

// Bytes that a call was lent, or `-` where there are none.
pub(crate) fn lent(rt: HostRuntime, bytes_lent: &[u8]) -> io::Result<()>
    requires { length bytes_lent.now ≤ most_room }
{
    if bytes_lent.is_empty() {
        print!(rt; "-")?;
    }
    bytes(rt, bytes_lent)
}

pub(crate) fn end(rt: HostRuntime) -> io::Result<()> {
    println!(rt)
}

pub(crate) fn number(rt: HostRuntime, n: usize) -> io::Result<()> {
    print!(rt; "{n} ")
}
