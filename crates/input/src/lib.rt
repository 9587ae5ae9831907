// Reading for the programs, so that an input that cannot be read is told from one that has ended. A read that a
// signal interrupts counts as failed; no program here catches one.
#![tactic(auto)]

ghost use Rattle.std.specs.Prelude.{◌≡◌, length, replicate, IfOk};
ghost use Rattle.input.specs.Filled.{IsFront};

use std::io;
use std::io::{Print, Read};

// As many bytes as an input can have that a program looks at.
pub const LARGE: usize = 65536;

// All zeros. A function of its own, so that a proof elsewhere knows its length without its bytes.
pub fn large_buffer() -> [u8; LARGE]
    ensures long { 65536 ≡ length result }
    ensures zeros { result ≡ replicate 65536 0 }
{
    [0; LARGE]
}

// Reads until the lent bytes are full, the input ends or a read fails. Ok: so many were read, fewer than all only
// where the input has ended. Err: what was read before is not told.
pub fn fill<R: Read>(from: &mut R, buf: &mut [u8]) -> io::Result<usize>
    ensures { IfOk result (λ n. IsFront n buf.new) }
{
    let mut done = 0;
    // no `for`: how far each turn goes is the reader's to say
    while done < buf.len() {
        let more = from.read(&mut buf[done..])?;
        if more == 0 {
            break;
        }
        done += more;
    }
    Ok(done)
}

// Reads a whole input, as far as any program looks at one, and has it answered; where it cannot be read, says so on
// standard error in the program's name.
pub fn answered<F: FnOnce(&[u8]) -> io::Result<()> + Drop>(
    rt: HostRuntime,
    program: &[u8],
    answer: F,
) -> io::Result<()>
    requires { F.IsAlwaysCallable answer }
{
    let mut lent = large_buffer();
    match fill(&mut rt.stdin(), &mut lent) {
        Ok(n) => answer(&lent[..n]),
        Err(_) => say_failed(&rt.stderr(), program),
    }
}

// What a program says on standard error where it could not read.
pub fn say_failed<P: Print>(to: &P, program: &[u8]) -> io::Result<()> {
    to.write_all(program)?;
    to.write_all(b": standard input could not be read\n")
}
