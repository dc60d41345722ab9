// A part up to its first process: its names are entered and its row is written.
ghost use Rattle.std.specs.Prelude.{List, ◌∷◌, ◌≡◌, ◌+◌, ◌*◌, ◌≤◌, ◌<◌, drop};
ghost use Rattle.terms.specs.Names.{Name};
ghost use Rattle.terms.specs.Terms.{Value};
ghost use Rattle.text.specs.Tokens.{Token, lex, opens, comma};
ghost use Rattle.text.specs.Tokens.Token.{word, sign};
ghost use Rattle.text.specs.Syntax.{Span, Process};
ghost use Rattle.text.specs.Syntax.Part.{go, out, inp, call};
ghost use Rattle.text.specs.Tree.{timer_of, settle};
ghost use Rattle.text.specs.Write.{timer_t};
ghost use Rattle.text.specs.WellFormed.{WellTimer, WellPart};
ghost use Rattle.table.specs.Tests.{key_name};
ghost use Rattle.table.specs.Valid.{index};
ghost use Rattle.text_build.specs.Rows.{scope_names};
ghost use Rattle.text_build.specs.Keys.{key_of};
ghost use Rattle.text_build.specs.Put.{offsets};
ghost use Rattle.text_put.specs.Found.{Gives, ListAt, FrontIs, Marked, entered_by};
ghost use Rattle.text_put.specs.Opened.{PartAt, TailAt, tail_t, OpenIs};

use super::values::{NO_WORDS, args, slot, value_in};
use super::words::{name_at, pair_at};
use super::{Front, Open};
use table::{CHANNELS, IDENTIFIERS, Key, OWNS, ROW_SIZE, Script};
use text_build::{Scope, number, put_row};
use text_parts::Form;
use text_words::{Sort, eat, skip_blanks, sort_of, word_end};

// `go(t,v,` behind its first word.
fn open_go(s: &[u8], at: usize, w: &mut Script, i: usize, sc: Scope) -> Option<Open>
    requires { (i < 4096) × (sc.n ≤ 8) }
    ensures { (t : Span) (v : Value) (p : Process) (us : List Token) → WellPart (settle (go t v p)) → lex (drop at s.now) ≡ tail_t (go t v p) us → Gives (λ r. OpenIs s.now w.old w.new i sc r (go t v p) us) result }
{
    let a = eat(s, at, b'(')?;
    let f = pair_at(s, a)?;
    let x = f.key;
    let v = value_in(w, sc, x, f.capital);
    let p = i.saturating_sub(1) as u32;
    put_row(w, i, 1, 0, f.t, v, p, sc, NO_WORDS);
    Some(Open {
        end: f.end,
        form: Form::One,
        inner: sc,
    })
}

// `(c,t,x,`
fn front_at(s: &[u8], at: usize) -> Option<Front>
    ensures { (c : Name) (t : Span) (x : Name) (us : List Token) → WellTimer (timer_of t) → lex (drop at s.now) ≡ sign opens ∷ word c ∷ sign comma ∷ timer_t t (sign comma ∷ word x ∷ sign comma ∷ us) → Gives (λ r. FrontIs s.now r c t x us) result }
{
    let a = eat(s, at, b'(')?;
    let c = name_at(s, a)?;
    let k = c.key;
    let b = eat(s, c.end, b',')?;
    let f = pair_at(s, b)?;
    let x = f.key;
    Some(Front {
        end: f.end,
        chan: k,
        t: f.t,
        key: x,
        capital: f.capital,
    })
}

// `out(c,t,v,` behind its first word.
fn open_out(s: &[u8], at: usize, w: &mut Script, i: usize, sc: Scope) -> Option<Open>
    requires { (i < 4096) × (sc.n ≤ 8) }
    ensures { (c : Name) (t : Span) (v : Value) (p q : Process) (us : List Token) → WellPart (settle (out c t v p q)) → lex (drop at s.now) ≡ tail_t (out c t v p q) us → Gives (λ r. OpenIs s.now w.old w.new i sc r (out c t v p q) us) result }
{
    let f = front_at(s, at)?;
    let k = f.chan;
    let x = f.key;
    let c = number(w, CHANNELS, 2, k);
    let v = value_in(w, sc, x, f.capital);
    let p = i.saturating_sub(1) as u32;
    put_row(w, i, 2, c as u32, f.t, v, p, sc, NO_WORDS);
    Some(Open {
        end: f.end,
        form: Form::Two,
        inner: sc,
    })
}

// The scope of an input's P, where j is the slot of its name.
fn entered(sc: Scope, i: usize, j: usize) -> Scope
    requires { (i < 4096) × (sc.n ≤ 8) }
    ensures { result ≡ entered_by sc i j }
{
    let n = sc.n;
    if j < n {
        return sc;
    }
    if n < 8 {
        let mut at = sc.at;
        at[n] = (OWNS + i * ROW_SIZE) as u32;
        return Scope { n: n + 1, at: at };
    }
    sc
}

// A ninth name is noted in the word 4. The slot of the name afterwards.
fn noted(w: &mut Script, sc: Scope, k: Key, j: usize) -> usize
    requires { (sc.n ≤ 8) × (j ≡ index (scope_names w.old (offsets sc)) (key_name k)) }
    ensures { Marked w.old w.new sc k j result }
{
    let n = sc.n;
    if j < n {
        return j;
    }
    if n < 8 {
        return j;
    }
    w[4] = 1;
    slot(w, sc, k)
}

// `in(c,t,y,` behind its first word.
fn open_in(s: &[u8], at: usize, w: &mut Script, i: usize, sc: Scope) -> Option<Open>
    requires { (i < 4096) × (sc.n ≤ 8) }
    ensures { (c : Name) (t : Span) (y : Name) (p q : Process) (us : List Token) → WellPart (settle (inp c t y p q)) → lex (drop at s.now) ≡ tail_t (inp c t y p q) us → Gives (λ r. OpenIs s.now w.old w.new i sc r (inp c t y p q) us) result }
{
    let f = front_at(s, at)?;
    let k = f.chan;
    let y = f.key;
    let j = slot(w, sc, y);
    let inner = entered(sc, i, j);
    let m = noted(w, sc, y, j);
    let c = number(w, CHANNELS, 2, k);
    let p = i.saturating_sub(1) as u32;
    put_row(w, i, 3, c as u32, f.t, m as u32, p, sc, y);
    Some(Open {
        end: f.end,
        form: Form::Two,
        inner: inner,
    })
}

// A call behind its identifier x.
fn open_call(s: &[u8], at: usize, w: &mut Script, i: usize, sc: Scope, x: Key) -> Option<Open>
    requires { (i < 4096) × (sc.n ≤ 8) × ListAt s.now at }
    ensures { (y : ListAt s.now at) (d : Name) → x ≡ key_of d → Gives (λ r. OpenIs s.now w.old w.new i sc r (call d y.what) y.left) result }
{
    let n = text_build::held_in(w, 3);
    let d = text_build::find(w, IDENTIFIERS, ROW_SIZE, n, x).unwrap_or(n);
    let g = args(s, at, w, sc)?;
    let k = g.first;
    put_row(w, i, 4, d as u32, 0, g.n, 0, sc, k);
    Some(Open {
        end: g.end,
        form: Form::Leaf,
        inner: sc,
    })
}

// A part behind its first word, which is of the sort k and has the letters x.
fn open_by(
    s: &[u8],
    at: usize,
    w: &mut Script,
    i: usize,
    sc: Scope,
    k: Sort,
    x: Key,
) -> Option<Open>
    requires { (i < 4096) × (sc.n ≤ 8) × TailAt s.now at k x }
    ensures { (y : TailAt s.now at k x) → Gives (λ r. OpenIs s.now w.old w.new i sc r y.what y.left) result }
{
    match k {
        Sort::Stop => {
            put_row(w, i, 0, 0, 0, 0, 0, sc, NO_WORDS);
            Some(Open {
                end: at,
                form: Form::Leaf,
                inner: sc,
            })
        }
        Sort::Go => open_go(s, at, w, i, sc),
        Sort::Out => open_out(s, at, w, i, sc),
        Sort::In => open_in(s, at, w, i, sc),
        Sort::Small | Sort::Location => open_call(s, at, w, i, sc, x),
        Sort::Inf | Sort::Ticks | Sort::Other => None,
    }
}

// A part up to its first process.
pub(crate) fn open_part(s: &[u8], at: usize, w: &mut Script, i: usize, sc: Scope) -> Option<Open>
    requires { (i < 4096) × (sc.n ≤ 8) × PartAt s.now at }
    ensures { (x : PartAt s.now at) → Gives (λ r. OpenIs s.now w.old w.new i sc r x.what x.left) result }
{
    let a = skip_blanks(s, at);
    let e = word_end(s, a);
    if a < e {
        let k = sort_of(&s[a..e]);
        let x = text_build::key_of(&s[a..e]);
        return open_by(s, e, w, i, sc, k, x);
    }
    None
}
