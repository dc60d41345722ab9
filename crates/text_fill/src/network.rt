// Located processes, and where their components stand.
ghost use Rattle.std.specs.Prelude.{◌≤◌, ◌<◌, [], ◌∷◌, length};
ghost use Rattle.text_put.specs.Found.{Gives};
ghost use Rattle.text_put.specs.Opened.{ProcessAt};
ghost use Rattle.text_fill.specs.Spread.{Spread};
ghost use Rattle.text_fill.specs.Located.{LocatedAt, NetworkAt, OuterPut, LocatedPut, NetworkPut};

use super::Spotted;
use table::{LOCATIONS, Script};
use text_build::{Scope, link, number};
use text_put::parts::put_part;
use text_put::words::name_at;
use text_words::eat;

// The next component, at the place i and the location l; behind the end of the array it is dropped.
fn spot(out: &mut [[u32; 2]], n: usize, l: u32, i: u32) -> usize
    requires { n ≤ length out.old }
    ensures { Spread out.old out.new n result ((l ∷ i ∷ []) ∷ []) }
{
    if n < out.len() {
        out[n] = [l, i];
        return n + 1;
    }
    n
}

// A process at the place i with nothing in scope, each of its outermost parts a component at the location l.
fn put_outer(
    s: &[u8],
    at: usize,
    w: &mut Script,
    i: usize,
    l: u32,
    out: &mut [[u32; 2]],
    n: usize,
) -> Option<Spotted>
    requires { (i < 4096) × (n ≤ length out.old) × ProcessAt s.now at }
    ensures { (x : ProcessAt s.now at) → Gives (λ r. OuterPut s.now w.old w.new i l out.old out.new n r x.what x.left) result }
{
    let a = put_part(s, at, w, i, Scope { n: 0, at: [0; 8] });
    let m = spot(out, n, l, i as u32);
    let Some(b) = eat(s, a.end, b'|') else {
        link(w, i, 0, a.low as u32);
        return Some(Spotted {
            end: a.end,
            low: a.low,
            n: m,
        });
    };
    let j = a.low.saturating_sub(1);
    let r = put_outer(s, b, w, j, l, out, m)?;
    link(w, i, (j + 1) as u32, r.low as u32);
    Some(r)
}

// `L[P]`, its first part at i: where it ends, the place behind it, and how many components there are.
fn put_located(
    s: &[u8],
    at: usize,
    w: &mut Script,
    i: usize,
    out: &mut [[u32; 2]],
    n: usize,
) -> Option<Spotted>
    requires { (i < 4096) × (n ≤ length out.old) × LocatedAt s.now at }
    ensures { (x : LocatedAt s.now at) → Gives (λ r. LocatedPut s.now w.old w.new i out.old out.new n r x.name x.body x.left) result }
{
    let x = name_at(s, at)?;
    let y = x.key;
    let l = number(w, LOCATIONS, 1, y);
    let b = eat(s, x.end, b'[')?;
    let p = put_outer(s, b, w, i, l as u32, out, n)?;
    let e = eat(s, p.end, b']')?;
    Some(Spotted {
        end: e,
        low: p.low.saturating_sub(1),
        n: p.n,
    })
}

// All located processes, the first at i: how many components there are.
pub(crate) fn put_network(
    s: &[u8],
    at: usize,
    w: &mut Script,
    i: usize,
    out: &mut [[u32; 2]],
) -> Option<usize>
    requires { (i < 4096) × NetworkAt s.now at }
    ensures { (x : NetworkAt s.now at) → Gives (λ r. NetworkPut w.old w.new i out.old out.new r (x.first ∷ x.more)) result }
{
    let mut here = at;
    let mut j = i;
    let mut n = 0;
    loop {
        let r = put_located(s, here, w, j, out, n)?;
        n = r.n;
        j = r.low;
        let Some(b) = eat(s, r.end, b'|') else {
            return Some(n);
        };
        here = b;
    }
}
