// What an action makes of one component, or of an output and an input.
ghost use Rattle.std.specs.Prelude.{◌≡◌, true, List, ℕ, ◌<◌, set};
ghost use Rattle.terms.specs.Rules.Kind.{calls, moves};
ghost use Rattle.table.specs.Valid.{script_ok, comp_ok};
ghost use Rattle.table.specs.Fire.{value_in, left_at, arg_in, becomes_at, meet_at, alone_at, together_at};
ghost use Rattle.calls_fire.specs.Fired.{one_of, two_of, callee};

use super::rights::granted;
use super::{Fired, Label, Met};
use table::{Comp, Head, Script, words};
use terms::refusal::Refusal;

// What a value's word stands for.
pub fn value_in(vals: [u32; 8], v: u32) -> u32
    ensures { result ≡ value_in vals v }
{
    if v < 64 {
        return v;
    }
    let k = words::wide(v - 64);
    if k < 8 {
        return vals[k];
    }
    0
}

// The component that an action at l leaves at k: it has not waited yet.
pub fn left(l: u32, k: u32, place: u32, vals: [u32; 8]) -> Comp
    ensures { result ≡ left_at l k place vals }
{
    Comp {
        loc: k,
        mark: l,
        place,
        timer: 0,
        vals,
        wait: 0,
    }
}

// What argument k of the n arguments of the call at i puts in its slot.
fn arg_in(w: &Script, i: usize, vals: [u32; 8], n: u32, k: u32) -> u32
    requires { (i < 4096) × (k < 4) }
    ensures { result ≡ arg_in w.now i vals n k }
{
    if k < n {
        return value_in(vals, words::arg_at(w, i, words::wide(k)));
    }
    0
}

// A call by c, whose part is h.
fn becomes_call(w: &Script, c: Comp, h: Head) -> Result<Fired, Refusal>
    requires { (callee h < 32) × (c.place < 4096) }
    ensures { one_of result ≡ becomes_at w.now calls c h }
{
    let Head::Call(d, n) = h else {
        return Err(Refusal::WrongForm);
    };
    let i = words::wide(c.place);
    let x0 = arg_in(w, i, c.vals, n, 0);
    let x1 = arg_in(w, i, c.vals, n, 1);
    let x2 = arg_in(w, i, c.vals, n, 2);
    let x3 = arg_in(w, i, c.vals, n, 3);
    let place = words::body_of(w, words::wide(d));
    Ok(Fired {
        label: Label {
            kind: 1,
            a: d,
            b: 0,
            at: c.loc,
        },
        comp: left(c.loc, c.loc, place, [x0, x1, x2, x3, 0, 0, 0, 0]),
    })
}

// A move of c, whose part is h.
fn becomes_move(c: Comp, h: Head) -> Result<Fired, Refusal>
    ensures { (w : List ℕ) → one_of result ≡ becomes_at w moves c h }
{
    let Head::Go(_, v, p) = h else {
        return Err(Refusal::WrongForm);
    };
    let x = value_in(c.vals, v);
    let l = c.loc;
    let vals = c.vals;
    Ok(Fired {
        label: Label {
            kind: 2,
            a: x,
            b: 0,
            at: l,
        },
        comp: left(l, x, p, vals),
    })
}

// The input that received v in the slot k.
fn received(e: Comp, l: u32, p: u32, k: u32, v: u32) -> Comp
    ensures { result ≡ left_at l l p (set e.vals k v) }
{
    let mut vals = e.vals;
    let i = words::wide(k);
    if i < 8 {
        vals[i] = v;
    }
    left(l, l, p, vals)
}

// A communication of c, whose part is h, and e, whose part is g.
fn meet(c: Comp, e: Comp, h: Head, g: Head) -> Result<Met, Refusal>
    ensures { two_of result ≡ meet_at c e h g }
{
    let Head::Out(d, _, v, p, _) = h else {
        return Err(Refusal::WrongForm);
    };
    let Head::In(d2, _, k, p2, _) = g else {
        return Err(Refusal::WrongForm);
    };
    let l = c.loc;
    let l2 = e.loc;
    if d != d2 || l != l2 {
        return Err(Refusal::Apart);
    }
    let x = value_in(c.vals, v);
    Ok(Met {
        label: Label {
            kind: 3,
            a: d,
            b: x,
            at: l,
        },
        sender: left(l, l, p, c.vals),
        receiver: received(e, l, p2, k, x),
    })
}

// Questions 9 and 10 of a call by c, which needs no right.
pub fn fire_call(w: &Script, c: Comp) -> Result<Fired, Refusal>
    requires { (script_ok w.now ≡ true) × (comp_ok w.now c ≡ true) }
    ensures { one_of result ≡ alone_at w.now calls c }
{
    if c.mark < 64 {
        return Err(Refusal::Marked);
    }
    let h = words::head_at(w, words::wide(c.place));
    becomes_call(w, c, h)
}

// Questions 9, 10 and 20 of a move of c.
pub fn fire_move(w: &Script, c: Comp) -> Result<Fired, Refusal>
    requires { (script_ok w.now ≡ true) × (comp_ok w.now c ≡ true) }
    ensures { one_of result ≡ alone_at w.now moves c }
{
    if c.mark < 64 {
        return Err(Refusal::Marked);
    }
    let h = words::head_at(w, words::wide(c.place));
    let f = becomes_move(c, h)?;
    if !granted(w, f.label) {
        return Err(Refusal::NoRight);
    }
    Ok(f)
}

// Questions 9 to 11 and 20 of a communication of c and e.
pub fn fire_pair(w: &Script, c: Comp, e: Comp) -> Result<Met, Refusal>
    requires { (script_ok w.now ≡ true) × (comp_ok w.now c ≡ true) × (comp_ok w.now e ≡ true) }
    ensures { two_of result ≡ together_at w.now c e }
{
    if c.mark < 64 || e.mark < 64 {
        return Err(Refusal::Marked);
    }
    let h = words::head_at(w, words::wide(c.place));
    let g = words::head_at(w, words::wide(e.place));
    let m = meet(c, e, h, g)?;
    if !granted(w, m.label) {
        return Err(Refusal::NoRight);
    }
    Ok(m)
}
