// The stream of frames, which comes from standard input.
use std::io;

// Fills the lent bytes; false where the stream ends before they are full, or cannot be read, which it says.
pub(crate) fn fills(rt: HostRuntime, lent: &mut [u8]) -> io::Result<bool> {
    match input::fill(&mut rt.stdin(), lent) {
        Ok(n) => Ok(n == lent.len()),
        Err(_) => {
            input::say_failed(&rt.stderr(), b"batch")?;
            Ok(false)
        }
    }
}
