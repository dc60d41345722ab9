// The locations where a ready component must act before a tick: a call, or, with its right, a move with timer 0 or an output that is heard there.
ghost use Rattle.std.specs.Prelude.{◌≡◌, true};
ghost use Rattle.table.specs.Valid.{script_ok, comp_ok};
ghost use Rattle.calls_forced.specs.Marked.{presses_in, press_of};

use calls_must::forced::{is_marked, must_act, sent_on};
use table::{Comp, Head, Script, words};

fn presses(w: &Script, ears: &[bool; 4096], c: Comp, h: Head) -> bool
    ensures { result ≡ presses_in w.now ears.now c h }
{
    let l = words::wide(c.loc);
    let heard = sent_on(h).is_some_and(|d| is_marked(ears, l * 64 + words::wide(d)));
    must_act(w, heard, c, h)
}

// The location of c if it presses there.
pub(crate) fn press_of(w: &Script, ears: &[bool; 4096], c: Comp) -> Option<usize>
    requires { (script_ok w.now ≡ true) × (comp_ok w.now c ≡ true) }
    ensures { result ≡ press_of w.now ears.now c }
{
    if c.mark < 64 {
        return None;
    }
    let h = words::head_at(w, words::wide(c.place));
    if presses(w, ears, c, h) {
        Some(words::wide(c.loc))
    } else {
        None
    }
}
