// Layer 2, reading and writing: the call `read`. The edition is asked (question 21), a text is scanned (questions 1 to 4), then written into the lent script in
// three passes, which is asked questions 4 to 7. A text that is refused leaves the script as it was: the words that the passes write are kept aside before, and
// so are the edition and the rights. An accepted one leaves the other words behind its last row as they were. What the call answers: specs/Answer of
// text_answer.
//
// proofs/Numbers  the numbers that a refusal of `read` has
#![tactic(auto)]

ghost use Rattle.std.specs.Prelude.{◌≡◌};
ghost use Rattle.text_scan.specs.Answers.{scan_of};
ghost use Rattle.text_scan.specs.Limits.{limits};
ghost use Rattle.text_answer.specs.Answer.{ReadsAs, ReadsOver};
ghost use Rattle.text_enter.specs.Entered.{Tried};

use table::{EDITION, PARTS_END, RIGHTS, Script};
use terms::is_edition;
use terms::refusal::Refusal;
use text_answer::front::{put_edition, wipe};
use text_answer::given::{RIGHTS_WORDS, put_settings};
use text_answer::state::accept;
use text_answer::{Reading, Settings, refuse};
use text_enter::{Places, enter, enter_kept};
use text_scan::{Scanned, limits};

// A text that passes the scan, written into the lent script: a refusal leaves the script as it was. A text of few parts needs less space to keep words aside,
// which is set to zero first; another may need as much as a whole script.
fn try_enter(text: &[u8], c: Scanned, w: &mut Script, out: &mut Places) -> Result<usize, Refusal>
    requires { (c ≡ scan_of text.now) × (limits c ≡ 0) }
    ensures { Tried text.now w.old w.new out.new result }
{
    match c.parts {
        0..=32 => enter_kept::<2056>(text, c, w, out),
        33..=128 => enter_kept::<4360>(text, c, w, out),
        _ => enter_kept::<PARTS_END>(text, c, w, out),
    }
}

// The call `read`: questions 21 and 1 to 7, and the network in the lent script and the answer's components.
pub fn read(text: &[u8], given: Settings, w: &mut Script) -> Reading
    ensures { ReadsAs text.now given w.old w.new result }
{
    if !is_edition(given.edition) {
        return refuse(Refusal::NoEdition.number());
    }
    let c = text_scan::scan(text);
    if let Err(e) = limits(c) {
        return refuse(e.number());
    }
    let mut out = [[0; 2]; 256];
    let mut kept = [0u32; RIGHTS_WORDS];
    let before = w[EDITION];
    kept.copy_from_slice(&w[RIGHTS..RIGHTS + RIGHTS_WORDS]);
    put_settings(w, given);
    match try_enter(text, c, w, &mut out) {
        Ok(n) => accept(w, &out[..n]),
        Err(e) => {
            w[RIGHTS..RIGHTS + RIGHTS_WORDS].copy_from_slice(&kept);
            put_edition(w, before);
            refuse(e.number())
        }
    }
}

// The call `read` for a caller that does not need the script's words after a refusal, which sets them all to zero: nothing is kept aside.
pub fn read_over(text: &[u8], given: Settings, w: &mut Script) -> Reading
    ensures { ReadsOver text.now given w.old w.new result }
{
    if !is_edition(given.edition) {
        wipe(w);
        return refuse(Refusal::NoEdition.number());
    }
    let c = text_scan::scan(text);
    if let Err(e) = limits(c) {
        wipe(w);
        return refuse(e.number());
    }
    let mut out = [[0; 2]; 256];
    put_settings(w, given);
    match enter(text, c, w, &mut out) {
        Ok(n) => accept(w, &out[..n]),
        Err(e) => {
            wipe(w);
            refuse(e.number())
        }
    }
}
