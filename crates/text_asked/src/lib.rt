// Layer 2, reading and writing: questions 4 to 7 asked of the script that the second pass of reading wrote. What they say of the text: proofs/Asked* of text_tree.
//
//   specs/Answer  the number of the first question that is answered by no
//   src/lib       one function for each question, one for each row or definition that it goes through, one for all
//   proofs/Each   a test of each definition or part, as a chain over their numbers
//   proofs/Rows   what the head of a part says of its tests, and the parameters of a definition
#![tactic(auto)]

ghost use Rattle.std.specs.Prelude.{◌≡◌, [], ◌∷◌, ◌<◌, ◌≤◌, take};
ghost use Rattle.terms.specs.Same.{every};
ghost use Rattle.terms.specs.Letters.{distinct};
ghost use Rattle.terms.specs.Refusals.{code_of};
ghost use Rattle.table.specs.Words.{parts_in, defs_in, field, head_at, params_of, count_field};
ghost use Rattle.text_tree.specs.Asked.{roomy, apart, call_held, calls_held, in_scope, values_bound, all_bound};
ghost use Rattle.text_asked.specs.Answer.{asked};

use table::words::{arg_at, arity_of, field, head_at, wide, word};
use table::{COUNT_FIELD, FIRST_PARAM, Head, IDENTIFIERS, NAME_SIZE, ROW_SIZE, Script};
use table_names::all_apart;
use terms::refusal::Refusal;

// ── 4 ──

// Was every table of names and every scope large enough?
pub fn roomy(w: &Script) -> bool
    ensures { result ≡ roomy w.now }
{
    word(w, 4) == 0
}

// ── 5 ──

// Do the parameters of d differ?
fn params_apart(w: &Script, d: usize) -> bool
    requires { d < 32 }
    ensures { result ≡ distinct (params_of w.now d) }
{
    all_apart(
        w,
        FIRST_PARAM + d * ROW_SIZE,
        NAME_SIZE,
        wide(arity_of(w, d)).min(4),
    )
}

// Do the identifiers differ, and the parameters of each definition?
pub fn apart(w: &Script) -> bool
    requires { defs_in w.now ≤ 32 }
    ensures { result ≡ apart w.now }
{
    let n = wide(word(w, 3));
    all_apart(w, IDENTIFIERS, ROW_SIZE, n) && (0..n).all(|d| params_apart(w, d))
}

// ── 6 ──

// The part at i, if it is a call: does it name a held definition, with as many arguments as that has parameters?
fn call_held(w: &Script, i: usize) -> bool
    requires { (i < 4096) × (defs_in w.now ≤ 32) }
    ensures { result ≡ call_held w.now (head_at w.now i) }
{
    match head_at(w, i) {
        Head::Call(d, n) => d < word(w, 3) && n == arity_of(w, wide(d)),
        _ => true,
    }
}

pub fn calls_held(w: &Script) -> bool
    requires { (parts_in w.now ≤ 4096) × (defs_in w.now ≤ 32) }
    ensures { result ≡ calls_held w.now }
{
    (0..wide(word(w, 0))).all(|i| call_held(w, i))
}

// ── 7 ──

// Is v a location, or the slot of one of n names?
fn in_scope(n: u32, v: u32) -> bool
    ensures { result ≡ in_scope n v }
{
    wide(v) < 64 + wide(n)
}

// The same of the first m of a call's four arguments.
fn args_bound(w: &Script, i: usize, n: u32, m: u32) -> bool
    requires { i < 4096 }
    ensures { result ≡ every (in_scope n) (take m (field w.now i 17 ∷ field w.now i 18 ∷ field w.now i 19 ∷ field w.now i 20 ∷ [])) }
{
    (0..wide(m).min(4)).all(|k| in_scope(n, arg_at(w, i, k)))
}

// The same of each value of the part at i.
fn values_bound(w: &Script, i: usize) -> bool
    requires { i < 4096 }
    ensures { result ≡ values_bound w.now i (field w.now i count_field) (head_at w.now i) }
{
    let n = field(w, i, COUNT_FIELD);
    match head_at(w, i) {
        Head::Go(_, v, _) | Head::Out(_, _, v, _, _) => in_scope(n, v),
        Head::Call(_, m) => args_bound(w, i, n, m),
        _ => true,
    }
}

pub fn all_bound(w: &Script) -> bool
    requires { parts_in w.now ≤ 4096 }
    ensures { result ≡ all_bound w.now }
{
    (0..wide(word(w, 0))).all(|i| values_bound(w, i))
}

// ── 4 to 7 ──

// Questions 4 to 7 asked of a script: the first that is answered by no.
pub fn asked(w: &Script) -> Result<(), Refusal>
    requires { (parts_in w.now ≤ 4096) × (defs_in w.now ≤ 32) }
    ensures { code_of result ≡ asked w.now }
{
    if !roomy(w) {
        return Err(Refusal::TooMany);
    }
    if !apart(w) {
        return Err(Refusal::DefinedTwice);
    }
    if !calls_held(w) {
        return Err(Refusal::NotDefined);
    }
    if !all_bound(w) {
        return Err(Refusal::NotBound);
    }
    Ok(())
}
