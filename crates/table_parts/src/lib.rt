// Layer 1, the table: the parts of question 17. Every function answers for one definition; a caller has checked the counts, so that every index is in range.
//
//   src/lib             the tests of a part by its kind, and of all parts
//   specs/Tests         what the contracts of internal functions cite
//   proofs/ValidParts   the tests of a part by its kind
//   proofs/ValidLeaves  a part with no scope and nothing after it
//   proofs/ValidPlain   an output or an input with no scope and nothing after it
//   proofs/ValidRoots   the names in scopes, from the first row of a process to all of them
#![tactic(auto)]

ghost use Rattle.std.specs.Prelude.{◌≡◌, true, ℕ, ◌+◌, ◌<◌, ◌≤◌};
ghost use Rattle.terms.specs.Same.{every};
ghost use Rattle.table.specs.Words.{parts_in, locs_in, defs_in, field, names_at, args_at, arg_field, count_field, first_field, name_field, timer_field, value_field};
ghost use Rattle.table.specs.Valid.{below, timer_ok, ref_ok, part_ok};
ghost use Rattle.table_scopes.specs.Tests.{Scoped, scope_named};
ghost use Rattle.table_parts.specs.Tests.{PlainCall, Leaf, row_ok, rest_ok, send_ok, out_ok, in_ok};
ghost use Rattle.table.specs.declared.Head.TheVariants.{Go, Call};

use table::words::{arity_of, field, key_at, low_at, next_at, wide, word};
use table::{
    ARG_FIELD, COUNT_FIELD, FIRST_FIELD, KIND_FIELD, NAME_FIELD, OWNS, ROW_SIZE, SECOND_FIELD,
    SLOT_FIELD, Script, TIMER_FIELD, VALUE_FIELD,
};
use table_names::Sort;
use table_names::forms::is_name_at;
use table_scopes::{bound_ok, end_ok, find_slot, inner_ok, ref_ok, scope_named, slots_in};

pub fn timer_ok(t: u32) -> bool
    ensures { result ≡ timer_ok t }
{
    t <= 1000001
}

fn go_ok(w: &Script, i: usize, n: usize) -> bool
    requires { Scoped w.now i n }
    ensures { result ≡ rest_ok w.now i (Go (field w.now i timer_field) (field w.now i value_field) (field w.now i first_field)) }
{
    if !timer_ok(field(w, i, TIMER_FIELD)) {
        return false;
    }
    if !ref_ok(w, i, n, field(w, i, VALUE_FIELD)) {
        return false;
    }
    let p = wide(field(w, i, FIRST_FIELD));
    if p + 1 != i {
        return false;
    }
    if !inner_ok(w, i, n, p) {
        return false;
    }
    end_ok(w, i, n, wide(low_at(w, p)))
}

// What an output and an input share, of which P has been tested.
fn send_ok(w: &Script, i: usize, n: usize, p: usize) -> bool
    requires { Scoped w.now i n × (p ≡ field w.now i first_field) × (p < i) }
    ensures { result ≡ send_ok w.now i }
{
    let c = word(w, 2);
    if c <= field(w, i, NAME_FIELD) {
        return false;
    }
    if !timer_ok(field(w, i, TIMER_FIELD)) {
        return false;
    }
    if p + 1 != i {
        return false;
    }
    let q = wide(field(w, i, SECOND_FIELD));
    if q + 1 != wide(low_at(w, p)) {
        return false;
    }
    if !inner_ok(w, i, n, q) {
        return false;
    }
    end_ok(w, i, n, wide(low_at(w, q)))
}

fn any_out(w: &Script, i: usize, n: usize) -> bool
    requires { Scoped w.now i n }
    ensures { result ≡ out_ok w.now i }
{
    if !ref_ok(w, i, n, field(w, i, VALUE_FIELD)) {
        return false;
    }
    let p = wide(field(w, i, FIRST_FIELD));
    if !inner_ok(w, i, n, p) {
        return false;
    }
    send_ok(w, i, n, p)
}

fn any_in(w: &Script, i: usize, n: usize) -> bool
    requires { Scoped w.now i n }
    ensures { result ≡ in_ok w.now i }
{
    if !is_name_at(Sort::Small, w, OWNS + i * ROW_SIZE) {
        return false;
    }
    let y = key_at(w, OWNS + i * ROW_SIZE);
    let k = field(w, i, VALUE_FIELD);
    if find_slot(w, i, n, y) != wide(k) {
        return false;
    }
    let p = wide(field(w, i, FIRST_FIELD));
    if !bound_ok(w, i, n, p, k) {
        return false;
    }
    send_ok(w, i, n, p)
}

// Most outputs and inputs have no variable in scope and nothing after them, and pass by the few tests of the three functions below; any other goes on to
// `any_out` or `any_in`. Here what they share, of which P is directly before them.
fn plain_send(w: &Script, i: usize, p: usize) -> bool
    requires { Scoped w.now i 0 × (p ≡ field w.now i first_field) × (p + 1 ≡ i) }
    ensures { result ≡ true → send_ok w.now i ≡ true }
{
    if next_at(w, i) != 0 {
        return false;
    }
    if word(w, 2) <= field(w, i, NAME_FIELD) {
        return false;
    }
    if !timer_ok(field(w, i, TIMER_FIELD)) {
        return false;
    }
    let q = wide(field(w, i, SECOND_FIELD));
    if i <= q {
        return false;
    }
    if q + 1 != wide(low_at(w, p)) {
        return false;
    }
    if field(w, q, COUNT_FIELD) != 0 {
        return false;
    }
    low_at(w, i) == low_at(w, q)
}

fn plain_out(w: &Script, i: usize, n: usize) -> bool
    requires { Scoped w.now i n }
    ensures { result ≡ true → out_ok w.now i ≡ true }
{
    if n != 0 {
        return false;
    }
    let v = field(w, i, VALUE_FIELD);
    if 64 <= v {
        return false;
    }
    if word(w, 1) <= v {
        return false;
    }
    let p = wide(field(w, i, FIRST_FIELD));
    if p + 1 != i {
        return false;
    }
    if field(w, p, COUNT_FIELD) != 0 {
        return false;
    }
    plain_send(w, i, p)
}

fn out_ok(w: &Script, i: usize, n: usize) -> bool
    requires { Scoped w.now i n }
    ensures { result ≡ out_ok w.now i }
{
    plain_out(w, i, n) || any_out(w, i, n)
}

fn plain_in(w: &Script, i: usize, n: usize) -> bool
    requires { Scoped w.now i n }
    ensures { result ≡ true → in_ok w.now i ≡ true }
{
    if n != 0 {
        return false;
    }
    if field(w, i, VALUE_FIELD) != 0 {
        return false;
    }
    let p = wide(field(w, i, FIRST_FIELD));
    if p + 1 != i {
        return false;
    }
    if field(w, p, COUNT_FIELD) != 1 {
        return false;
    }
    if wide(field(w, p, SLOT_FIELD)) != OWNS + i * ROW_SIZE {
        return false;
    }
    if !plain_send(w, i, p) {
        return false;
    }
    is_name_at(Sort::Small, w, OWNS + i * ROW_SIZE)
}

fn in_ok(w: &Script, i: usize, n: usize) -> bool
    requires { Scoped w.now i n }
    ensures { result ≡ in_ok w.now i }
{
    plain_in(w, i, n) || any_in(w, i, n)
}

fn args_ok(w: &Script, i: usize, n: usize, m: u32) -> bool
    requires { Scoped w.now i n }
    ensures { result ≡ every (ref_ok w.now (names_at w.now i)) (args_at w.now i m) }
{
    (0..wide(m).min(4)).all(|k| ref_ok(w, i, n, field(w, i, ARG_FIELD + k)))
}

fn call_ok(w: &Script, i: usize, n: usize) -> bool
    requires { Scoped w.now i n × (defs_in w.now ≤ 32) }
    ensures { result ≡ rest_ok w.now i (Call (field w.now i name_field) (field w.now i value_field)) }
{
    let c = word(w, 3);
    let d = field(w, i, NAME_FIELD);
    if c <= d {
        return false;
    }
    let m = field(w, i, VALUE_FIELD);
    if m != arity_of(w, wide(d)) {
        return false;
    }
    if !args_ok(w, i, n, m) {
        return false;
    }
    end_ok(w, i, n, i)
}

fn part_ok(w: &Script, i: usize) -> bool
    requires { (i < 4096) × (defs_in w.now ≤ 32) }
    ensures { result ≡ row_ok w.now i }
{
    let n = wide(field(w, i, COUNT_FIELD));
    if 8 < n {
        return false;
    }
    if !slots_in(w, i, n) {
        return false;
    }
    let k = field(w, i, KIND_FIELD);
    match k {
        0 => end_ok(w, i, n, i),
        1 => go_ok(w, i, n),
        2 => out_ok(w, i, n),
        3 => in_ok(w, i, n),
        4 => call_ok(w, i, n),
        _ => false,
    }
}

// Are the first m arguments locations?
fn plain_args(w: &Script, i: usize, m: u32) -> bool
    requires { i < 4096 }
    ensures { result ≡ true → (k : ℕ) → k < m → k < 4 → field w.now i (arg_field + k) < locs_in w.now }
{
    let l = word(w, 1);
    (0..wide(m).min(4)).all(|k| field(w, i, ARG_FIELD + k) < l)
}

// A held definition with its number of arguments, all of which are locations?
fn plain_call(w: &Script, i: usize) -> bool
    requires { (i < 4096) × (defs_in w.now ≤ 32) }
    ensures { result ≡ true → PlainCall w.now i }
{
    let d = field(w, i, NAME_FIELD);
    let m = field(w, i, VALUE_FIELD);
    d < word(w, 3) && m == arity_of(w, wide(d)) && plain_args(w, i, m)
}

// Is it stop or such a call, with no variable in scope and nothing after it? Most parts are, and pass by few tests; any other has to pass `part_ok`.
#[tactic(auto, using(crate::proofs::ValidLeaves::leaf_laws))]
fn leaf_ok(w: &Script, i: usize) -> bool
    requires { (i < 4096) × (defs_in w.now ≤ 32) × (locs_in w.now ≤ 64) }
    ensures { result ≡ true → Leaf w.now i }
{
    if wide(low_at(w, i)) != i || field(w, i, COUNT_FIELD) != 0 || next_at(w, i) != 0 {
        return false;
    }
    match field(w, i, KIND_FIELD) {
        0 => true,
        4 => plain_call(w, i),
        _ => false,
    }
}

// The first part from i on that is no such one, or n.
fn after_leaves(w: &Script, i: usize, n: usize) -> usize
    requires { (i ≤ n) × (n ≤ 4096) × (defs_in w.now ≤ 32) × (locs_in w.now ≤ 64) }
    ensures { (i ≤ result) × (result ≤ n) × ((k : ℕ) → k < result → i ≤ k → Leaf w.now k) }
{
    (i..n).find(|j| !leaf_ok(w, *j)).unwrap_or(n)
}

// The names in the scopes of all parts, where no part below f has a variable in scope. An inner process has the scope of its part, or one name more, which was
// tested with the part; so only the first part of each process that is in no other is looked at, from the highest place down.
fn scopes_named(w: &Script, f: usize) -> bool
    requires { (parts_in w.now ≤ 4096) × (below (parts_in w.now) (row_ok w.now) ≡ true) × ((k : ℕ) → k < f → field w.now k count_field ≡ 0) }
    ensures { result ≡ below (parts_in w.now) (scope_named w.now) }
{
    // from one place to a place that the part there names, so that no range serves
    let mut i = wide(word(w, 0));
    while f < i {
        let r = i - 1;
        if !scope_named(w, r, wide(field(w, r, COUNT_FIELD))) {
            return false;
        }
        i = wide(low_at(w, r));
    }
    true
}

// First every part, but for the names in its scope, then these names. (Not within question 17, where the words of a part are read from the stack again and again.)
#[inline(never)]
pub fn parts_ok(w: &Script) -> bool
    requires { (parts_in w.now ≤ 4096) × (defs_in w.now ≤ 32) × (locs_in w.now ≤ 64) }
    ensures { result ≡ below (parts_in w.now) (part_ok w.now) }
{
    let n = wide(word(w, 0));
    let f = after_leaves(w, 0, n);
    // from one part that is no leaf to the next one, which is searched for, so that no range serves
    let mut i = f;
    while i < n {
        if !part_ok(w, i) {
            return false;
        }
        i = after_leaves(w, i + 1, n);
    }
    scopes_named(w, f)
}
