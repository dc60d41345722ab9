// Layer 3, calls: does every component stay one in a step or a tick at a location? Then as many are left as there were, question 13 is answered by yes, and nothing is
// to be put back.
//
//   specs/Steady    components that a tick touches, and those that are still one after a step or a tick
//   proofs/Staying  where each stays one, actions keep that, and a tick leaves as many
#![tactic(auto)]

ghost use Rattle.std.specs.Prelude.{◌≡◌, true, ◌&&◌, ◌<◌};
ghost use Rattle.terms.specs.Same.{every};
ghost use Rattle.table.specs.Words.{head_at};
ghost use Rattle.table.specs.Meaning.{comps_of};
ghost use Rattle.table.specs.Valid.{script_ok, comp_ok};
ghost use Rattle.calls_steady.specs.Steady.{touches, one_part, leaves_one, stays_one};

use table::comps::comp_at;
use table::network::Network;
use table::{Comp, Head, Script, words};

// Has the tick at l anything to do with c?
pub fn touched(l: u32, c: Comp) -> bool
    ensures { result ≡ touches l c }
{
    if c.mark < 64 { c.mark == l } else { c.loc == l }
}

fn one_part(w: &Script, place: u32) -> bool
    requires { place < 4096 }
    ensures { result ≡ one_part w.now place }
{
    words::next_at(w, words::wide(place)) == 0
}

fn both_one(w: &Script, p: u32, q: u32) -> bool
    requires { (p < 4096) × (q < 4096) }
    ensures { result ≡ (one_part w.now p && one_part w.now q) }
{
    one_part(w, p) && one_part(w, q)
}

fn leaves_one(w: &Script, c: Comp) -> bool
    requires { (script_ok w.now ≡ true) × (comp_ok w.now c ≡ true) }
    ensures { result ≡ leaves_one w.now (head_at w.now c.place) }
{
    let h = words::head_at(w, words::wide(c.place));
    match h {
        Head::Stop => true,
        Head::Go(_, _, p) => one_part(w, p),
        Head::Out(_, _, _, p, q) | Head::In(_, _, _, p, q) => both_one(w, p, q),
        Head::Call(d, _) => one_part(w, words::body_of(w, words::wide(d))),
    }
}

fn stays_one(w: &Script, l: u32, c: Comp) -> bool
    requires { (script_ok w.now ≡ true) × (comp_ok w.now c ≡ true) }
    ensures { result ≡ stays_one w.now l c }
{
    if c.mark < 64 {
        return c.mark != l || one_part(w, c.place);
    }
    c.loc != l || leaves_one(w, c)
}

// Is it known at little cost that every component stays one? Where more than 64 have to be looked at, a copy of all components costs less, and nothing is said.
pub fn known_steady(net: Network, l: u32) -> bool
    ensures { result ≡ true → every (stays_one net.entry.script.now l) (comps_of (record { c = net.entry.words.now; n = net.entry.n })) ≡ true }
{
    let mut left: usize = 64;
    for j in 0..net.n {
        let x = comp_at(net.words, j);
        if !touched(l, x) {
            continue;
        }
        if left == 0 || !stays_one(net.script, l, x) {
            return false;
        }
        left -= 1;
    }
    true
}
