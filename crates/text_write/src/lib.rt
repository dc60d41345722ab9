// Layer 2, writing: a network in its table form as text, in a lent buffer.
//
// specs/Answer     what the call answers
//
// proofs/Answered  the answers of the call
#![tactic(auto)]

ghost use Rattle.std.specs.Prelude.{◌≡◌, true, not, ◌≤◌, ltb, length};
ghost use Rattle.terms.specs.Same.{every};
ghost use Rattle.table.specs.Meaning.{comps_of};
ghost use Rattle.text_network.specs.Text.{no_mark};
ghost use Rattle.text_write.specs.Answer.{write_answer, written, Answers};

use table::comps::comp_at;
use table::network::Network;
use table::words::word;
use table::{Script, Words};
use table_valid::network;
use terms::refusal::Refusal;
use text_network::write_text;

// What the write call returns: 0 or the number of the question answered by no, and the text's length.
#[repr(C)]
#[derive(Clone, Copy)]
pub struct Written {
    pub code: u32,
    pub len: usize,
}

// The call's answer from the text's length, or a refusal.
impl From<Result<usize, Refusal>> for Written {
    ghost from_gives = { λ x r. r ≡ written x };

    fn from(x: Result<usize, Refusal>) -> Written {
        match x {
            Ok(len) => Written { code: 0, len },
            Err(e) => Written {
                code: e.number(),
                len: 0,
            },
        }
    }
}

// The write call: 17, then the others.
pub fn write(w: &Script, c: &Words, n: usize, buf: &mut [u8]) -> Written
    ensures { Answers (write_answer w.now (record { c = c.entry.now; n = n }) (length buf.old)) buf.old result buf.new }
{
    match network(w, c, n) {
        None => Written::from(Err(Refusal::NotValid)),
        Some(net) => Written::from(write_valid(net, buf)),
    }
}

// The text of an unmarked network, or 15: it is written beside the buffer first, into bytes whose content does not matter. Only a text that is longer than
// these is written a second time.
fn write_beside(net: Network, text: &mut [u8], buf: &mut [u8]) -> Result<usize, Refusal>
    requires { no_mark net.script.now (record { c = net.words.now; n = net.n }) ≡ true }
    ensures { Answers (write_answer net.entry.script.now (record { c = net.entry.words.now; n = net.entry.n }) (length buf.old)) buf.old (written result) buf.new }
{
    let k = write_text(net, text);
    if buf.len() < k {
        return Err(Refusal::BufferShort);
    }
    if text.len() < k {
        write_text(net, buf);
        return Ok(k);
    }
    buf[..k].copy_from_slice(&text[..k]);
    Ok(k)
}

// The same on a network that passes question 17: 14, then 15 and the text. Few parts mostly have a short text.
fn write_valid(net: Network, buf: &mut [u8]) -> Result<usize, Refusal>
    ensures { Answers (write_answer net.entry.script.now (record { c = net.entry.words.now; n = net.entry.n }) (length buf.old)) buf.old (written result) buf.new }
{
    if !all_unmarked(net.words, net.n) {
        return Err(Refusal::MarkedText);
    }
    if word(net.script, 0) <= 128 {
        let mut short = [0; 4096];
        return write_beside(net, &mut short, buf);
    }
    let mut text = [0; 65536];
    write_beside(net, &mut text, buf)
}

// 14: is no component marked?
fn all_unmarked(c: &Words, n: usize) -> bool
    requires { n ≤ 256 }
    ensures { result ≡ every (λ x. not (ltb x.mark 64)) (comps_of (record { c = c.entry.now; n = n })) }
{
    (0..n).all(|k| 64 <= comp_at(c, k).mark)
}
