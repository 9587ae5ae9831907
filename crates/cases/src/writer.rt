// Writing: 32, then 31, then the case's bytes from the front and nothing behind them.
ghost use Rattle.std.specs.Prelude.{◌≡◌, true, false, length, take, IfOk, IfErr};
ghost use Rattle.cases.specs.declared.writer.Unwritten.TheVariants.{Unreadable};
ghost use Rattle.cases.specs.Sizes.{longest};
ghost use Rattle.cases.specs.Seats.{encode_of};
ghost use Rattle.cases.specs.Writing.{reads_as, reads_back, wrote_of, written_of, unwritten_no, wrote_no, wrote_length};

use crate::case::Case;
use crate::reader::{Answer, read};
use crate::seats::encode;
use crate::sizes::LONGEST;

// Why nothing is written: no byte string reads as the case, 32; the lent bytes are shorter than its file, 31. Another number
// no function here answers: whoever has one can still ask what an answer with it stands for.
#[derive(Clone, Copy, PartialEq, Eq)]
pub enum Unwritten {
    Unreadable,
    Short,
    Other(u8),
}

impl Unwritten {
    fn number(self) -> u8
        ensures { result ≡ unwritten_no self }
    {
        match self {
            Unwritten::Unreadable => 32,
            Unwritten::Short => 31,
            Unwritten::Other(m) => m,
        }
    }
}

// 0 where the file was stored, else the refusal's number.
pub fn wrote_number(w: Result<usize, Unwritten>) -> u8
    ensures { result ≡ wrote_no w }
{
    match w {
        Ok(_) => 0,
        Err(refusal) => refusal.number(),
    }
}

// The stored file's length, or 0.
pub fn wrote_length(w: Result<usize, Unwritten>) -> usize
    ensures { result ≡ wrote_length w }
{
    w.unwrap_or(0)
}

// Do the bytes read as that very case?
fn reads_as(bytes: &[u8], c: &Case) -> bool
    ensures { result ≡ reads_as bytes.now c.now }
{
    let r = read(bytes);
    match r.answer {
        Answer::Whole(_) => *c == r.case,
        Answer::Refused(_, _) => false,
    }
}

// Puts the case's file at the front of the longest file's bytes, and says how long it is, if it reads as the case.
fn checked_file(c: &Case, file: &mut [u8]) -> Result<usize, Unwritten>
    requires { length file.old ≡ longest }
    ensures checked { IfOk result (λ n. (reads_back c.now ≡ true) × (n ≡ length (encode_of c.now))
        × (take n file.new ≡ encode_of c.now)) }
    ensures unreadable { IfErr result (λ e. (e ≡ Unreadable) × (reads_back c.now ≡ false)) }
{
    let n = encode(c, file);
    if reads_as(&file[..n], c) {
        Ok(n)
    } else {
        Err(Unwritten::Unreadable)
    }
}

// Does some byte string read as the case? (else 32)
pub fn reads_back(c: Case) -> bool
    ensures { result ≡ reads_back c }
{
    checked_file(&c, &mut [0u8; LONGEST]).is_ok()
}

// Writes the case from the front of the lent bytes, and says how long its file is.
pub fn write(c: Case, out: &mut [u8]) -> Result<usize, Unwritten>
    ensures { (result ≡ wrote_of c out.old) × (out.new ≡ written_of c out.old) }
{
    let mut file = [0u8; LONGEST];
    let n = checked_file(&c, &mut file)?;
    if out.len() < n {
        return Err(Unwritten::Short);
    }
    out[..n].copy_from_slice(&file[..n]);
    Ok(n)
}
