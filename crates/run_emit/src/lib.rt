// Layer 4, the program: bytes from standard input, bytes to standard output, and a message to standard error. No contract can say what the system's streams
// give and take, so these go over any reader and any writer: where its bytes are known, they say which of them moved.
//
//   tests          readers and writers that fail in mid-stream
//
//   proofs/Moved   what two reads, or two writes, move one after the other
#![tactic(auto)]

ghost use Rattle.std.specs.Prelude.{◌≡◌, ◌≤◌, ◌<◌, ℕ, length, take, MatchResult, IfOk, IfErr};
ghost use Rattle.std.specs.Io.KnownBytes.{Appends, Consumes, IsAtEnd};

use std::io;
use std::io::{ErrorKind, Read, Write};

#[cfg(test)]
mod tests;

// A read failed. The bytes that had come before it are at the front of the buffer.
#[derive(Clone, Copy, Debug)]
pub struct ReadFailed {
    pub before: usize,
}

// What a reader gives, up to its end or until the buffer is full: the number of bytes at the front of the buffer. A read that fails is not tried again.
pub fn read_input<R: Read>(from: &mut R, buf: &mut [u8]) -> Result<usize, ReadFailed>
    ensures within { IfOk result (λ n. n ≤ length buf.new) }
    ensures front { IfOk result (λ n. n ≡ length (take n buf.new)) }
    ensures bytes { IfOk result (λ n. Consumes (R.remaining from.old) (R.remaining from.new) (take n buf.new)) }
    ensures end { IfOk result (λ n. n < length buf.new → IsAtEnd (R.remaining from.new)) }
    ensures failed { IfErr result (λ e. (e.before < length buf.new) × Consumes (R.remaining from.old) (R.remaining from.new) (take e.before buf.new)) }
{
    // by `read`, since the library's `read_exact` and `read_to_end` try an interrupted call again (decision 54)
    let mut n = 0;
    while n < buf.len() {
        match from.read(&mut buf[n..]) {
            Ok(0) => return Ok(n),
            Ok(k) => n += k,
            // in an arm: with `map_err(..)?` the edit a_failed_read_is_the_end would be refused for another reason
            Err(_) => return Err(ReadFailed { before: n }),
        }
    }
    Ok(n)
}

// The bytes, whole: all were written, and nothing holds them back. A write that fails is not tried again; what was written before it stays.
pub fn emit<W: Write>(to: &mut W, out: &[u8]) -> io::Result<()>
    ensures { MatchResult result (λ _. Appends (W.contents to.old) (W.contents to.new) out.now)
        (λ _. (k : ℕ) × (k ≤ length out.now) × Appends (W.contents to.old) (W.contents to.new) (take k out.now)) }
{
    // by `write`, since the library's `write_all` tries an interrupted call again (decision 54)
    let mut rest = out;
    while !rest.is_empty() {
        let k = to.write(rest)?;
        if k == 0 {
            return Err(io::Error::from(ErrorKind::WriteZero));
        }
        rest = &rest[k..];
    }
    to.flush()
}

// A message to standard error. There is nowhere left to say that it could not be written.
pub fn report<W: Write>(to: &mut W, message: &[u8]) {
    let _ = emit(to, message);
}
