// Definitions: their heads, and then their bodies, so that every call finds its definition.
ghost use Rattle.std.specs.Prelude.{◌+◌, ◌*◌, ◌≤◌, ◌<◌, ◌∷◌, ◌≡◌};
ghost use Rattle.std.proofs.lemmas.List.Edits.{sets};
ghost use Rattle.text_build.specs.Tables.{key_words};
ghost use Rattle.text_tree.specs.Pass.{put_params, heads, no_scope, enter_at, params_from};
ghost use Rattle.text_put.specs.Found.{Gives};
ghost use Rattle.text_fill.specs.Ready.{Ready, tree_in, DefAt, NamesAt, ParamsAt, HeadPut, BodyPut, BodiesPut};
ghost use Rattle.table.specs.Words.{row_size, defs_at};

use super::Passed;
use table::{DEFINITIONS, FIRST_PARAM, Key, NAME_FIELD, NAME_SIZE, ROW_SIZE, Script, TIMER_FIELD};
use text_build::{Scope, put_key};
use text_parts::{list_of, read_process};
use text_put::parts::put_process;
use text_put::values::slot;
use text_put::words::name_at;
use text_scan::net_next;
use text_words::{Field, eat};

// Number of parameters, place of the body and identifier of the definition k.
fn put_front(w: &mut Script, k: usize, n: u32, i: u32, x: Key)
    requires { k < 32 }
    ensures { w.new ≡ sets w.old (defs_at + k * row_size) (n ∷ i ∷ key_words x) }
{
    w[DEFINITIONS + k * ROW_SIZE] = n;
    w[DEFINITIONS + k * ROW_SIZE + NAME_FIELD] = i;
    put_key(w, DEFINITIONS + k * ROW_SIZE + TIMER_FIELD, x);
}

// The parameters of the definition k, from the first on.
fn params_from(s: &[u8], at: usize, w: &mut Script, k: usize) -> Option<()>
    requires { (k < 32) × NamesAt s.now at 0 }
    ensures { (x : NamesAt s.now at 0) → Gives (λ u. w.new ≡ put_params w.old k 0 (x.first ∷ x.more)) result }
{
    let mut here = at;
    let mut j = 0;
    loop {
        let x = name_at(s, here)?;
        let y = x.key;
        put_key(w, FIRST_PARAM + k * ROW_SIZE + j * NAME_SIZE, y);
        let Some(b) = eat(s, x.end, b',') else {
            return Some(());
        };
        here = b;
        j += 1;
    }
}

// Nothing, or parameters in brackets.
fn params_at(s: &[u8], at: usize, w: &mut Script, k: usize) -> Option<()>
    requires { (k < 32) × ParamsAt s.now at }
    ensures { (x : ParamsAt s.now at) → Gives (λ u. w.new ≡ put_params w.old k 0 x.what) result }
{
    match eat(s, at, b'(') {
        None => Some(()),
        Some(o) => params_from(s, o, w, k),
    }
}

// The head of the definition k, whose body is to stand at i.
fn put_head(s: &[u8], at: usize, w: &mut Script, k: usize, i: usize) -> Option<Passed>
    requires { (k < 32) × (i < 4096) × DefAt s.now at }
    ensures { (x : DefAt s.now at) → Gives (λ r. HeadPut s.now w.old w.new k i r x.name x.params x.body x.left) result }
{
    let x = name_at(s, at)?;
    let y = x.key;
    let us = list_of(s, x.end, Field::Small)?;
    put_front(w, k, us.count as u32, i as u32, y);
    params_at(s, x.end, w, k)?;
    let e = eat(s, us.end, b'=')?;
    let p = read_process(s, e)?;
    let d = eat(s, p.end, b'.')?;
    Some(Passed {
        end: d,
        place: i.saturating_sub(p.parts as usize),
    })
}

// The name that stands at the word o goes behind the names in scope, unless it is among them.
fn entered(w: &Script, sc: Scope, o: usize) -> Scope
    requires { (sc.n < 8) × (o < 1000) }
    ensures { result ≡ enter_at w.now sc o }
{
    let n = sc.n;
    let k = table::words::key_at(w, o);
    if slot(w, sc, k) < n {
        return sc;
    }
    let mut at = sc.at;
    at[n] = o as u32;
    Scope { n: n + 1, at: at }
}

// The scope of the body of the definition k, which has n parameters.
fn params_scope(w: &Script, k: usize, n: usize) -> Scope
    requires { (k < 32) × (n ≤ 4) }
    ensures { result ≡ params_from w.now k 0 n no_scope }
{
    let mut sc = Scope { n: 0, at: [0; 8] };
    for j in 0..n {
        sc = entered(w, sc, FIRST_PARAM + k * ROW_SIZE + j * NAME_SIZE);
    }
    sc
}

// The body of the definition k, at i.
fn put_body(s: &[u8], at: usize, w: &mut Script, k: usize, i: usize) -> Option<Passed>
    requires { (k < 32) × (i < 4096) × DefAt s.now at }
    ensures { (x : DefAt s.now at) → Gives (λ r. BodyPut s.now w.old w.new k i r x.params x.body x.left) result }
{
    let x = name_at(s, at)?;
    let us = list_of(s, x.end, Field::Small)?;
    let e = eat(s, us.end, b'=')?;
    let sc = params_scope(w, k, us.count as usize);
    let p = put_process(s, e, w, i, sc);
    let d = eat(s, p.end, b'.')?;
    Some(Passed {
        end: d,
        place: p.low.saturating_sub(1),
    })
}

// The heads of all definitions, the body of the first at i.
pub(crate) fn put_heads(s: &[u8], w: &mut Script, i: usize) -> Option<()>
    requires { (i < 4096) × Ready s.now }
    ensures { (x : Ready s.now) → Gives (λ u. w.new ≡ heads (tree_in x).defs 0 i w.old) result }
{
    let mut here = 0;
    let mut k = 0;
    let mut j = i;
    while !net_next(s, here) {
        let r = put_head(s, here, w, k, j)?;
        here = r.end;
        j = r.place;
        k += 1;
    }
    Some(())
}

// The bodies of all definitions: where the network begins, and the place of its first part.
pub(crate) fn put_bodies(s: &[u8], w: &mut Script, i: usize) -> Option<Passed>
    requires { (i < 4096) × Ready s.now }
    ensures { (x : Ready s.now) → Gives (λ r. BodiesPut s.now w.old w.new i r x.text) result }
{
    let mut here = 0;
    let mut k = 0;
    let mut j = i;
    while !net_next(s, here) {
        let r = put_body(s, here, w, k, j)?;
        here = r.end;
        j = r.place;
        k += 1;
    }
    Some(Passed {
        end: here,
        place: j,
    })
}
