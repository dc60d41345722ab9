// Layer 1, the table: the scopes of question 17, and the places of inner processes. A caller has checked the counts, so that every index is in range.
//
//   src/lib             the names in a scope, the values that it allows, and that an inner process has the scope that it needs
//   specs/Tests         what the contracts of internal functions cite
//   proofs/ValidScopes  scopes as the words of a part have them, and what comes after a part
//   proofs/Searched     what a test of each number of a range has shown
#![tactic(auto)]

ghost use Rattle.std.specs.Prelude.{◌≡◌, ◌<◌, ◌≤◌, ltb, take};
ghost use Rattle.terms.specs.Same.{every};
ghost use Rattle.table.specs.Words.{last_name, scope_at, names_at, at_most8};
ghost use Rattle.table.specs.Valid.{alike, index, slot_ok, ref_ok, inner_ok, entered};
ghost use Rattle.table.specs.Tests.{key_name, slots};
ghost use Rattle.table_scopes.specs.Tests.{Scoped, slot_named, scope_named, end_ok};

use table::words::{field, is_named, key_at, low_at, next_at, wide, word};
use table::{COUNT_FIELD, Key, LAST_NAME, OWNS, ROW_SIZE, SLOT_FIELD, Script};
use table_names::Sort;
use table_names::forms::is_name_at;

// ── scopes ──

#[tactic(auto, using(std::proofs::lemmas::Bool::Decides::nat_tests))]
pub fn at_most_8(x: u32) -> usize
    ensures { result ≡ at_most8 x }
{
    wide(x.min(8))
}

// Are the first n words of the scopes of p and i the same?
fn same_slots(w: &Script, p: usize, i: usize, n: usize) -> bool
    requires { (p < 4096) × (i < 4096) × (n ≤ 8) }
    ensures { result ≡ alike (take n (slots w.now p)) (take n (slots w.now i)) }
{
    (0..n).all(|k| field(w, p, SLOT_FIELD + k) == field(w, i, SLOT_FIELD + k))
}

// The first slot of a name.
pub fn find_slot(w: &Script, i: usize, n: usize, x: Key) -> usize
    requires { Scoped w.now i n }
    ensures { result ≡ index (names_at w.now i) (key_name x) }
{
    (0..n)
        .find(|k| is_named(w, wide(field(w, i, SLOT_FIELD + *k)), x))
        .unwrap_or(n)
}

// Has the name at a slot the form of a variable, and is it the first of its name?
#[tactic(auto, unfolding(crate::specs::Tests::slot_named, terms::specs::Letters::is_small))]
fn slot_named(w: &Script, i: usize, n: usize, k: usize) -> bool
    requires { Scoped w.now i n × (k < n) }
    ensures { result ≡ slot_named w.now i k }
{
    let o = wide(field(w, i, SLOT_FIELD + k));
    is_name_at(Sort::Small, w, o) && find_slot(w, i, n, key_at(w, o)) == k
}

// Have the names of the scope their form, and do they differ?
pub fn scope_named(w: &Script, i: usize, n: usize) -> bool
    requires { Scoped w.now i n }
    ensures { result ≡ scope_named w.now i }
{
    (0..n).all(|k| slot_named(w, i, n, k))
}

// Do the names of the scope stand in the script?
pub fn slots_in(w: &Script, i: usize, n: usize) -> bool
    requires { Scoped w.now i n }
    ensures { result ≡ every (λ o. ltb o last_name) (scope_at w.now i) }
{
    (0..n).all(|k| field(w, i, SLOT_FIELD + k) < LAST_NAME)
}

fn slot_ok(w: &Script, i: usize, n: usize, k: usize) -> bool
    requires { Scoped w.now i n }
    ensures { result ≡ slot_ok (names_at w.now i) k }
{
    k < n && find_slot(w, i, n, key_at(w, wide(field(w, i, SLOT_FIELD + k)))) == k
}

#[tactic(auto, using(crate::proofs::ValidScopes::value_laws, std::proofs::lemmas::Bool::Decides::nat_tests))]
pub fn ref_ok(w: &Script, i: usize, n: usize, v: u32) -> bool
    requires { Scoped w.now i n }
    ensures { result ≡ ref_ok w.now (names_at w.now i) v }
{
    if v < 64 {
        v < word(w, 1)
    } else {
        slot_ok(w, i, n, wide(v - 64))
    }
}

// ── places ──

#[tactic(auto, using(crate::proofs::ValidScopes::inner_laws, std::proofs::lemmas::Bool::Decides::nat_tests))]
pub fn inner_ok(w: &Script, i: usize, n: usize, p: usize) -> bool
    requires { Scoped w.now i n }
    ensures { result ≡ inner_ok w.now i p (scope_at w.now i) }
{
    p < i && at_most_8(field(w, p, COUNT_FIELD)) == n && same_slots(w, p, i, n)
}

// The same of the P of an input whose name has the slot k.
#[tactic(auto, using(crate::proofs::ValidScopes::bound_laws, std::proofs::lemmas::Bool::Decides::nat_tests), unfolding(table::specs::Words::own_at))]
pub fn bound_ok(w: &Script, i: usize, n: usize, p: usize, k: u32) -> bool
    requires { Scoped w.now i n }
    ensures { result ≡ inner_ok w.now i p (entered w.now i k) }
{
    if wide(k) < n {
        inner_ok(w, i, n, p)
    } else {
        p < i
            && at_most_8(field(w, p, COUNT_FIELD)) == n + 1
            && wide(field(w, p, SLOT_FIELD + n)) == OWNS + i * ROW_SIZE
            && same_slots(w, p, i, n)
    }
}

// The next part, and the least place of the process.
#[tactic(auto, using(crate::proofs::ValidScopes::end_laws, std::proofs::lemmas::Bool::Decides::nat_tests))]
pub fn end_ok(w: &Script, i: usize, n: usize, f: usize) -> bool
    requires { Scoped w.now i n }
    ensures { result ≡ end_ok w.now i f }
{
    let x = wide(next_at(w, i));
    let low = wide(low_at(w, i));
    if x == 0 {
        low == f
    } else {
        x == f && inner_ok(w, i, n, x - 1) && low == wide(low_at(w, x - 1))
    }
}
