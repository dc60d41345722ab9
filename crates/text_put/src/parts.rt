// Parts and processes: process reader and part reader call each other, the bytes left falling.
ghost use Rattle.std.specs.Prelude.{◌≤◌, ◌<◌};
ghost use Rattle.text_put.specs.Opened.{PartAt, ProcessAt, PartPut, ProcessPut};

use super::Placed;
use super::heads::open_part;
use table::Script;
use text_build::{Scope, link, set_second};
use text_parts::Form;
use text_words::eat;

// A process at the place i, with the names of sc in scope. (No `Option`: of a text that has the form it does not fail, and with one each part of a process
// takes half as much stack again.)
#[cycle(put_part_put_process)]
pub fn put_process(s: &[u8], at: usize, w: &mut Script, i: usize, sc: Scope) -> Placed
    requires { (i < 4096) × (sc.n ≤ 8) × ProcessAt s.now at }
    ensures { (x : ProcessAt s.now at) → ProcessPut s.now w.old w.new i sc result x.what x.left }
{
    let a = put_part(s, at, w, i, sc);
    let Some(b) = eat(s, a.end, b'|') else {
        link(w, i, 0, a.low as u32);
        return a;
    };
    let j = a.low.saturating_sub(1);
    let r = put_process(s, b, w, j, sc);
    link(w, i, (j + 1) as u32, r.low as u32);
    r
}

// A part at the place i. Where a sign is missing, which a text of the form excludes, it ends before the sign.
#[cycle(put_part_put_process)]
pub fn put_part(s: &[u8], at: usize, w: &mut Script, i: usize, sc: Scope) -> Placed
    requires { (i < 4096) × (sc.n ≤ 8) × PartAt s.now at }
    ensures { (x : PartAt s.now at) → PartPut s.now w.old w.new i sc result x.what x.left }
{
    let Some(o) = open_part(s, at, w, i, sc) else {
        return Placed { end: at, low: i };
    };
    if o.form == Form::Leaf {
        return Placed { end: o.end, low: i };
    }
    let inner = o.inner;
    let p = put_process(s, o.end, w, i.saturating_sub(1), inner);
    if o.form == Form::One {
        let Some(e) = eat(s, p.end, b')') else {
            return p;
        };
        return Placed { end: e, low: p.low };
    }
    let Some(q) = eat(s, p.end, b',') else {
        return p;
    };
    let k = p.low.saturating_sub(1);
    let r = put_process(s, q, w, k, sc);
    set_second(w, i, k as u32);
    let Some(e) = eat(s, r.end, b')') else {
        return r;
    };
    Placed { end: e, low: r.low }
}
