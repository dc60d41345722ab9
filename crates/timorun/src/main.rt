// Layer 4, the program: reads a text from standard input and writes its printout by pieces, a line as its step is done. `run_pieces` promises the pieces byte
// by byte, and that joined they are the printout.
//
// A text of 65,536 bytes or more fills the buffer, and so is refused by question 1, in however many parts it comes. Each piece has at most 65,536 bytes and
// goes through the buffer that the text came in. A read or a write that fails is told on standard error, and the exit status stays 0.
//
// proofs/Shown   pieces written one after the other, and what was read of a text
#![tactic(auto)]

ghost use Rattle.std.specs.Prelude.{◌≡◌, ℕ, length, take, IfSome, OnOk, IsErrOf, MatchResult};
ghost use Rattle.std.specs.Io.KnownBytes.{Appends, Keeps};
ghost use mathlib.Core.List.{flatten};
ghost use Rattle.run_print.specs.Print.{printout};
ghost use Rattle.run_pieces.specs.Pieces.{pieces_left, ProgressOk};

use run_pieces::Progress;
use std::io;
use std::io::{Read, Write};
use table::{SCRIPT_WORDS, Script};

// Why a run printed nothing, or not all.
#[derive(Clone, Copy)]
enum Failure {
    NotRead,
    NotWritten,
}

impl Failure {
    // The line that says so, as bytes and not by `Display`: it goes out by `emit`, which tries nothing again.
    fn message(self) -> &'static [u8] {
        match self {
            Failure::NotRead => b"timorun: standard input could not be read\n",
            Failure::NotWritten => b"timorun: the printout could not be written\n",
        }
    }
}

// The pieces that are left, one after the other, each written before the next is made. Where one was not written, those before it and its first bytes were.
fn show<W: Write>(to: &mut W, w: &Script, start: Progress, buf: &mut [u8]) -> io::Result<()>
    requires { ProgressOk w.now start × (length buf.old ≡ 65536) }
    ensures { MatchResult result (λ _. Appends (W.contents to.old) (W.contents to.new) (flatten (pieces_left w.now start)))
        (λ _. (k : ℕ) × Appends (W.contents to.old) (W.contents to.new) (take k (flatten (pieces_left w.now start)))) }
{
    let mut now = start;
    while let Some(len) = run_pieces::put_next(w, &mut now, buf) {
        run_emit::emit(to, &buf[..len])?;
    }
    Ok(())
}

// The printout of the text that a reader gives, of its first 65,536 bytes if it gives more. Where its bytes are known: a run that ends well wrote the printout
// and nothing else, one that could not write its first bytes; one that could not read wrote nothing.
fn run<R: Read, W: Write>(from: &mut R, to: &mut W) -> Result<(), Failure>
    ensures printed { OnOk result (IfSome (R.remaining from.old) (λ s.
        Appends (W.contents to.old) (W.contents to.new) (printout (take 65536 s)))) }
    ensures not_read { IsErrOf result Failure.NotRead → Keeps (W.contents to.old) (W.contents to.new) }
    ensures not_written { IsErrOf result Failure.NotWritten → IfSome (R.remaining from.old) (λ s.
        (k : ℕ) × Appends (W.contents to.old) (W.contents to.new) (take k (printout (take 65536 s)))) }
{
    let mut text = [0u8; 65536];
    let Ok(n) = run_emit::read_input(from, &mut text) else {
        return Err(Failure::NotRead);
    };
    let mut w = [0; SCRIPT_WORDS];
    let start = run_pieces::begin(&text[..n], &mut w);
    show(to, &w, start, &mut text).map_err(|_| Failure::NotWritten)
}

fn main(rt: HostRuntime) {
    if let Err(failure) = run(&mut rt.stdin(), &mut rt.stdout()) {
        run_emit::report(&mut rt.stderr(), failure.message());
    }
}
