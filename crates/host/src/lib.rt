// The library, in letters: what a host asks of a network to show it. No call here changes a network.
//
//   specs/Shown      what each call answers
//   proofs/Given     a text that was written beside the lent bytes and is handed over
//   proofs/Labelled  the label of an action, and its text
//   proofs/Lined     the line of a step, from the step on a copy
//   proofs/Records   the labels of a step's records are those of the step
//   proofs/Shows     a text that is never refused, in bytes of any number
//   proofs/Enough    how many bytes hold every name, label and line

#![tactic(auto)]

ghost use Rattle.std.specs.Prelude.{◌≡◌, ◌≤◌, ◌+◌, ◌*◌, length};
ghost use Rattle.table.specs.Words.{name_at, name_size, chans_at, word, locs_in, chans_in, loc_name, chan_name};
ghost use Rattle.table.specs.Fire.{label_of};
ghost use Rattle.calls_fire.specs.Fired.{tag_of};
ghost use Rattle.terms.specs.Refusals.{answer_of};
ghost use Rattle.text_write.specs.Answer.{written, Answers};
ghost use Rattle.run_line.specs.Line.{label_text};
ghost use Rattle.host.specs.Shown.{holding, count_answer, counted, name_answer, label_answer, line_answer};

use calls_act::naming::label_at;
use calls_fire::Label;
use calls_step::step::step_valid;
use run_line::{put_label, put_line};
use table::words::{wide, word};
use table::{CHANNELS, LOCATIONS, NAME_SIZE, Script, Words};
use table_valid::{is_valid, network};
use terms::refusal::Refusal;
use text_letters::Page;
use text_write::Written;

// How many: 0 or the number of the question answered by no, and the number, which is 0 with a refusal.
#[repr(C)]
#[derive(Clone, Copy)]
pub struct Counted {
    pub code: u32,
    pub count: u32,
}

impl From<Result<u32, Refusal>> for Counted {
    ghost from_gives = { λ x r. r ≡ counted (answer_of (λ k. k) x) };

    fn from(x: Result<u32, Refusal>) -> Counted {
        match x {
            Ok(count) => Counted { code: 0, count },
            Err(e) => Counted {
                code: e.number(),
                count: 0,
            },
        }
    }
}

// The number that the word i of the script holds: question 17.
fn count_at(w: &Script, c: &Words, n: usize, i: usize) -> Result<u32, Refusal>
    ensures { answer_of (λ k. k) result ≡ count_answer w.now (record { c = c.entry.now; n = n }) (word w.now i) }
{
    if is_valid(w, c, n) {
        return Ok(word(w, i));
    }
    Err(Refusal::NotValid)
}

// How many locations a network has: question 17.
pub fn locations(w: &Script, c: &Words, n: usize) -> Counted
    ensures { result ≡ counted (count_answer w.now (record { c = c.entry.now; n = n }) (locs_in w.now)) }
{
    Counted::from(count_at(w, c, n, 1))
}

// How many channels, likewise.
pub fn channels(w: &Script, c: &Words, n: usize) -> Counted
    ensures { result ≡ counted (count_answer w.now (record { c = c.entry.now; n = n }) (chans_in w.now)) }
{
    Counted::from(count_at(w, c, n, 2))
}

// The bytes of s to the front of the lent bytes, or 15. (Not by `copy_from_slice`: for all that the compiler knows the two overlap, and the library would want
// `memmove` from outside.)
fn give(s: &[u8], buf: &mut [u8]) -> Result<usize, Refusal>
    ensures { Answers (holding s.now (length buf.old)) buf.old (written result) buf.new }
{
    if buf.len() < s.len() {
        return Err(Refusal::BufferShort);
    }
    let mut page = Page::new(buf);
    page.put_all(s);
    Ok(s.len())
}

// The name that stands at the word o, or 15. A name has at most 16 bytes.
fn give_name(w: &Script, o: usize, buf: &mut [u8]) -> Result<usize, Refusal>
    ensures { Answers (holding (name_at w.now o) (length buf.old)) buf.old (written result) buf.new }
{
    let mut text = [0; 16];
    let mut page = Page::new(&mut text);
    page.put_name(w, o);
    give(page.text(), buf)
}

// The name numbered k of a sort whose number the word i holds and whose names begin at the word o: questions 17, 8, 15.
fn name_at(
    w: &Script,
    c: &Words,
    n: usize,
    i: usize,
    o: usize,
    k: u32,
    buf: &mut [u8],
) -> Result<usize, Refusal>
    requires { o ≤ chans_at }
    ensures { Answers (name_answer w.now (record { c = c.entry.now; n = n }) (word w.now i) (λ j. name_at w.now (o + j * name_size)) k (length buf.old)) buf.old (written result) buf.new }
{
    if !is_valid(w, c, n) {
        return Err(Refusal::NotValid);
    }
    if word(w, i) <= k {
        return Err(Refusal::OutOfRange);
    }
    give_name(w, o + wide(k) * NAME_SIZE, buf)
}

// The name of the location numbered l: questions 17, 8, 15.
pub fn location_name(w: &Script, c: &Words, n: usize, l: u32, buf: &mut [u8]) -> Written
    ensures { Answers (name_answer w.now (record { c = c.entry.now; n = n }) (locs_in w.now) (loc_name w.now) l (length buf.old)) buf.old result buf.new }
{
    Written::from(name_at(w, c, n, 1, LOCATIONS, l, buf))
}

// The name of the channel numbered h, likewise.
pub fn channel_name(w: &Script, c: &Words, n: usize, h: u32, buf: &mut [u8]) -> Written
    ensures { Answers (name_answer w.now (record { c = c.entry.now; n = n }) (chans_in w.now) (chan_name w.now) h (length buf.old)) buf.old result buf.new }
{
    Written::from(name_at(w, c, n, 2, CHANNELS, h, buf))
}

// The text of a label, or 15. It has at most 51 bytes.
fn give_label(w: &Script, x: Label, buf: &mut [u8]) -> Result<usize, Refusal>
    ensures { Answers (holding (label_text (label_of w.now (tag_of x))) (length buf.old)) buf.old (written result) buf.new }
{
    let mut text = [0; 51];
    let mut page = Page::new(&mut text);
    put_label(w, x, &mut page);
    give(page.text(), buf)
}

// The label of an action: questions 17, 8 to 11 and 20 as for the action itself, 15; not 18, for nothing is counted. Asked of the network before a step, the records of the step have the
// labels that its actions have when they fire (proofs/Records, by the law step-before of run_line).
pub fn action_label(
    w: &Script,
    c: &Words,
    n: usize,
    kind: u32,
    p: usize,
    q: usize,
    buf: &mut [u8],
) -> Written
    ensures { Answers (label_answer w.now (record { c = c.entry.now; n = n }) kind p q (length buf.old)) buf.old result buf.new }
{
    let Some(net) = network(w, c, n) else {
        return Written::from(Err(Refusal::NotValid));
    };
    let r = label_at(net, kind, p, q);
    if r.code != 0 {
        return Written {
            code: r.code,
            len: 0,
        };
    }
    Written::from(give_label(w, r.label, buf))
}

// The line of the step at the location numbered l, as `timorun` prints it: questions 17, 8, 18, 13 as for the step, 15. The step is made on a copy. A line
// has at most 13,329 bytes.
pub fn step_line(w: &Script, c: &Words, n: usize, l: u32, buf: &mut [u8]) -> Written
    ensures { Answers (line_answer w.now (record { c = c.entry.now; n = n }) l (length buf.old)) buf.old result buf.new }
{
    if !is_valid(w, c, n) {
        return Written::from(Err(Refusal::NotValid));
    }
    let mut next = *c;
    let mut records = [[0; 3]; 256];
    let s = step_valid(w, &mut next, n, l, &mut records);
    if s.code != 0 {
        return Written {
            code: s.code,
            len: 0,
        };
    }
    let mut text = [0; 13329];
    let mut page = Page::new(&mut text);
    put_line(w, c, n, l, &records[..s.count], &mut page);
    Written::from(give(page.text(), buf))
}
