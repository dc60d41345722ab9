// The channels that are heard, at all locations at once: the place of one is 64 times the location and the channel.
ghost use Rattle.std.specs.Prelude.{◌≡◌, true};
ghost use Rattle.table.specs.Valid.{script_ok, comp_ok};
ghost use Rattle.calls_forced.specs.Marked.{ear_in, ear_of};

use table::{Comp, Head, Script, words};

fn ear_in(l: u32, h: Head) -> Option<usize>
    ensures { result ≡ ear_in l h }
{
    match h {
        Head::In(d, _, _, _, _) => Some(words::wide(l) * 64 + words::wide(d)),
        _ => None,
    }
}

// The place of what c hears.
pub(crate) fn ear_of(w: &Script, c: Comp) -> Option<usize>
    requires { (script_ok w.now ≡ true) × (comp_ok w.now c ≡ true) }
    ensures { result ≡ ear_of w.now c }
{
    if c.mark < 64 {
        return None;
    }
    ear_in(c.loc, words::head_at(w, words::wide(c.place)))
}
