// A test program: the printouts of many texts. Each text of its input, and each printout that it writes, is followed by a line `#`, a sign that stands in
// neither. Its input and output are the reference engine's `vectors`.
#![tactic(auto)]

use run_emit::{emit, read_input};
use std::io::Write;

// One text. A printout that is longer than the buffer is left out; none of the stored ones is. A failed write stops none of those that follow.
fn one<W: Write>(to: &mut W, text: &[u8]) {
    let mut out = [0u8; 65536];
    let k = run_print::printout(text, &mut out);
    if k <= out.len() {
        let _ = emit(to, &out[..k]);
    }
    let _ = emit(to, b"#\n");
}

// What comes up to the end, up to a read that fails, or until the buffer is full.
fn main(rt: HostRuntime) {
    let mut text = [0u8; 65536];
    let n = read_input(&mut rt.stdin(), &mut text).unwrap_or_else(|e| e.before);
    all(&mut rt.stdout(), &text[..n]);
}

// All of them, each up to its `#` or the end; the byte behind a `#` ends its line.
fn all<W: Write>(to: &mut W, s: &[u8]) {
    let mut rest = s;
    while !rest.is_empty() {
        let e = rest.iter().position(|c| *c == b'#').unwrap_or(rest.len());
        let (text, mark) = rest.split_at(e);
        one(to, text);
        match mark {
            [_, _, next @ ..] => rest = next,
            _ => return,
        }
    }
}
