// Every component in the tick at l, one written at a time: in place as long as none splits, then out of a copy. A component that splits has a turn for each
// of its parts.
ghost use Rattle.std.specs.Prelude.{◌≡◌, true, ◌<◌, ◌≤◌, length, unwrap_or};
ghost use Rattle.table.specs.Words.{state_words, parts_in, edition_in};
ghost use Rattle.table.specs.Meaning.{comps_of};
ghost use Rattle.table.specs.Valid.{script_ok, comp_ok, valid, head_ok};
ghost use Rattle.table.specs.Split.{timer_in, fresh, timed, expired_at};
ghost use Rattle.table.specs.Fire.{passed_all};
ghost use Rattle.terms.specs.Clock.{less_raw, is_edition};
ghost use Rattle.calls_pass.specs.Turn.{Within, whole, part_of, else_turn, wait_turn, touched_turn, first_turn, turn_of, only_waits, waits_on};
ghost use Rattle.calls_pass.specs.Passed.{PassesAs, passed_from, PassedHere};

use super::Turn;
use calls_steady::touched;
use table::comps::{comp_at, put_comp};
use table::{Comp, EDITION, Head, Script, Words, words};
use terms::Timer;
use waits::longer;

fn timer_in(h: Head) -> u32
    ensures { result ≡ timer_in h }
{
    match h {
        Head::Go(t, _, _) | Head::Out(_, t, _, _, _) | Head::In(_, t, _, _, _) => t,
        Head::Stop | Head::Call(_, _) => 0,
    }
}

// The part at a place as a component of its own, which has not waited yet.
fn fresh_at(w: &Script, l: u32, vals: [u32; 8], place: u32) -> Comp
    requires { place < 4096 }
    ensures { result ≡ fresh w.now l vals place }
{
    let h = words::head_at(w, words::wide(place));
    Comp {
        loc: l,
        mark: 64,
        place,
        timer: timer_in(h),
        vals,
        wait: 0,
    }
}

fn whole_turn(c: Comp) -> Turn
    ensures { result ≡ whole c }
{
    Turn {
        comp: c,
        next: None,
    }
}

// c, with its timer less one; it has waited one tick more.
fn waited(c: Comp) -> Comp
    ensures { result ≡ timed c (less_raw c.timer) }
{
    let u = Timer { raw: c.timer }.less_one();
    Comp {
        timer: u.raw,
        wait: longer(c.wait),
        ..c
    }
}

fn timed_turn(c: Comp) -> Turn
    ensures { result ≡ whole (timed c (less_raw c.timer)) }
{
    whole_turn(waited(c))
}

fn is_expired(w: &Script, c: Comp) -> bool
    requires { is_edition (edition_in w.now) ≡ true }
    ensures { result ≡ expired_at w.now c }
{
    let t = Timer { raw: c.timer };
    t.is_expired(words::word(w, EDITION))
}

fn part_turn(w: &Script, c: Comp, place: u32) -> Turn
    requires { place < 4096 }
    ensures { result ≡ part_of w.now c place }
{
    Turn {
        comp: fresh_at(w, c.loc, c.vals, place),
        next: words::next_at(w, words::wide(place)).checked_sub(1),
    }
}

fn else_turn(w: &Script, c: Comp, q: u32) -> Turn
    requires { (q < 4096) × (is_edition (edition_in w.now) ≡ true) }
    ensures { result ≡ else_turn w.now c q }
{
    if is_expired(w, c) {
        return part_turn(w, c, q);
    }
    timed_turn(c)
}

fn wait_turn(w: &Script, c: Comp, h: Head) -> Turn
    requires { (head_ok w.now c.place h ≡ true) × (c.place < 4096) × (is_edition (edition_in w.now) ≡ true) }
    ensures { result ≡ wait_turn w.now c h }
{
    match h {
        Head::Stop => whole_turn(c),
        Head::Go(_, _, _) => timed_turn(c),
        Head::Out(_, _, _, _, q) | Head::In(_, _, _, _, q) => else_turn(w, c, q),
        Head::Call(_, _) => whole_turn(c),
    }
}

fn first_turn(w: &Script, l: u32, c: Comp) -> Turn
    requires { (script_ok w.now ≡ true) × (comp_ok w.now c ≡ true) }
    ensures { result ≡ first_turn w.now l c }
{
    if c.mark < 64 {
        if c.mark == l {
            return part_turn(w, c, c.place);
        }
        return whole_turn(c);
    }
    if c.loc == l {
        let h = words::head_at(w, words::wide(c.place));
        return wait_turn(w, c, h);
    }
    whole_turn(c)
}

fn turn(w: &Script, l: u32, c: Comp, next: Option<u32>) -> Turn
    requires { (script_ok w.now ≡ true) × (comp_ok w.now c ≡ true) × Within (parts_in w.now) next }
    ensures { result ≡ turn_of w.now l c next }
{
    match next {
        None => first_turn(w, l, c),
        Some(place) => part_turn(w, c, place),
    }
}

// The first turn of a component that the tick touches. It has one caller, so that it is compiled in place there, where most time is spent.
fn touched_turn(w: &Script, c: Comp) -> Turn
    requires { (script_ok w.now ≡ true) × (comp_ok w.now c ≡ true) }
    ensures { result ≡ touched_turn w.now c }
{
    if c.mark < 64 {
        return part_turn(w, c, c.place);
    }
    let h = words::head_at(w, words::wide(c.place));
    wait_turn(w, c, h)
}

// A ready component with the head h: does it only wait in a tick?
fn only_waits(w: &Script, c: Comp, h: Head) -> bool
    requires { is_edition (edition_in w.now) ≡ true }
    ensures { result ≡ only_waits w.now c h }
{
    match h {
        Head::Go(_, _, _) => true,
        Head::Out(_, _, _, _, _) | Head::In(_, _, _, _, _) => !is_expired(w, c),
        Head::Stop | Head::Call(_, _) => false,
    }
}

fn waits_on(w: &Script, c: Comp) -> bool
    requires { (script_ok w.now ≡ true) × (comp_ok w.now c ≡ true) }
    ensures { result ≡ waits_on w.now c }
{
    if c.mark < 64 {
        return false;
    }
    let h = words::head_at(w, words::wide(c.place));
    only_waits(w, c, h)
}

// The components in place, up to the first that splits: its position, if one does. One that the tick does not touch is left alone, and most of the others only
// wait.
fn pass_here(w: &Script, c: &mut Words, n: usize, l: u32) -> Option<usize>
    requires { (valid w.now (record { c = c.now; n = n }) ≡ true) × (length c.now ≡ state_words) }
    ensures { PassedHere w.now l (record { c = c.entry.now; n = n }) c.exit.now (unwrap_or result n) }
{
    for i in 0..n {
        let x = comp_at(c, i);
        if !touched(l, x) {
            continue;
        }
        if waits_on(w, x) {
            put_comp(c, i, waited(x));
            continue;
        }
        let t = touched_turn(w, x);
        if t.next.is_some() {
            return Some(i);
        }
        put_comp(c, i, t.comp);
    }
    None
}

// The components from position j on, written to out behind those that are there: how many they are with these, if there is room for all.
fn pass_rest(w: &Script, c: &Words, n: usize, l: u32, j: usize, out: &mut Words) -> Option<usize>
    requires { (valid w.now (record { c = c.now; n = n }) ≡ true) × (length out.old ≡ state_words) × (j ≤ n) }
    ensures { PassesAs (passed_from w.now l (record { c = c.entry.now; n = n }) j out.old) out.old out.new result }
{
    // i stays where a component that splits has a further turn, so that no range serves
    let mut k = j;
    let mut i = j;
    let mut next = None;
    while i < n {
        if 256 <= k {
            return None;
        }
        let t = turn(w, l, comp_at(c, i), next);
        put_comp(out, k, t.comp);
        k += 1;
        next = t.next;
        if next.is_none() {
            i += 1;
        }
    }
    Some(k)
}

// Every component in the tick at l, in the lent ones: how many they are, if there is room for all; else what the lent ones hold is of no use.
pub fn pass_all(w: &Script, c: &mut Words, n: usize, l: u32) -> Option<usize>
    requires { (valid w.now (record { c = c.now; n = n }) ≡ true) × (length c.now ≡ state_words) }
    ensures { PassesAs (passed_all w.now l (comps_of (record { c = c.entry.now; n = n }))) c.entry.now c.exit.now result }
{
    let Some(j) = pass_here(w, c, n, l) else {
        return Some(n);
    };
    let rest = *c;
    pass_rest(w, &rest, n, l, j, c)
}
