// Layer 1, the table: question 17, answered. Every function answers for one definition; the counts are checked first, so that every index is in range.
// Names are tested in table_names, scopes in table_scopes, parts in table_parts.
//
//   src/lib            the tests of definitions and components, and of the whole
//   specs/Tests        what the contracts of internal functions cite
//   proofs/ValidWhole  the tests of a script and of a state
#![tactic(auto)]

ghost use Rattle.std.specs.Prelude.{◌≡◌, ◌&&◌, ◌||◌, ◌+◌, ◌<◌, ◌≤◌, eqb, ltb, false, MatchOption};
ghost use Rattle.terms.specs.Same.{every};
ghost use Rattle.table.specs.Words.{parts_in, locs_in, defs_in, scope_at, params_at, arity_of};
ghost use Rattle.table.specs.Meaning.{comp_in, comps_of};
ghost use Rattle.table.specs.Valid.{alike, below, def_ok, script_ok, comp_ok, state_ok, valid};
ghost use Rattle.table_valid.specs.Tests.{counts_ok, head_fine, Few, Counted};

use table::network::Network;
use table::words::{arity_of, body_of, field, wide, word};
use table::{
    CHANNELS, COMP_SIZE, COUNT_FIELD, EDITION, FIRST_PARAM, IDENTIFIERS, LOCATIONS, NAME_SIZE,
    ROW_SIZE, SLOT_FIELD, Script, Words,
};
use table_names::{Sort, sort_ok};
use table_parts::{parts_ok, timer_ok};
use table_scopes::at_most_8;
use table_waits::ledger_ok;
use terms::is_edition;
use waits::LONGEST;

// ── definitions ──

// Are the parameters of d what is in scope at its body b?
fn params_in(w: &Script, d: usize, b: usize, a: usize) -> bool
    requires { (d < 32) × (b < 4096) × (a ≤ 4) × (a ≡ arity_of w.now d) }
    ensures { result ≡ alike (scope_at w.now b) (params_at w.now d) }
{
    let first = FIRST_PARAM + d * ROW_SIZE;
    at_most_8(field(w, b, COUNT_FIELD)) == a
        && (0..a).all(|k| wide(field(w, b, SLOT_FIELD + k)) == first + k * NAME_SIZE)
}

#[tactic(auto, using(std::proofs::lemmas::Bool::Decides::nat_tests, crate::proofs::ValidWhole::def_laws), unfolding(table::specs::Valid::def_ok, terms::specs::Letters::is_small))]
fn def_ok(w: &Script, d: usize) -> bool
    requires { (d < 32) × (parts_in w.now ≤ 4096) }
    ensures { result ≡ def_ok w.now d }
{
    let a = wide(arity_of(w, d));
    let b = wide(body_of(w, d));
    a <= 4
        && b < wide(word(w, 0))
        && params_in(w, d, b, a)
        && sort_ok(w, Sort::Small, FIRST_PARAM + d * ROW_SIZE, 4, a)
}

fn defs_ok(w: &Script) -> bool
    requires { (parts_in w.now ≤ 4096) × (defs_in w.now ≤ 32) }
    ensures { result ≡ below (defs_in w.now) (def_ok w.now) }
{
    (0..wide(word(w, 3))).all(|d| def_ok(w, d))
}

// ── the whole ──

// The counts and the edition.
#[tactic(auto, using(std::proofs::lemmas::Bool::Decides::nat_tests), unfolding(crate::specs::Tests::counts_ok))]
fn counts_ok(w: &Script) -> bool
    ensures { result ≡ counts_ok w.now }
{
    word(w, 0) <= 4096
        && word(w, 1) <= 64
        && word(w, 2) <= 64
        && word(w, 3) <= 32
        && is_edition(word(w, EDITION))
}

// A script by itself.
#[tactic(auto, using(crate::proofs::ValidWhole::script_laws))]
pub fn script_ok(w: &Script) -> bool
    ensures { result ≡ script_ok w.now }
{
    counts_ok(w)
        && sort_ok(w, Sort::Location, LOCATIONS, 4, wide(word(w, 1)))
        && sort_ok(w, Sort::Small, CHANNELS, 4, wide(word(w, 2)))
        && sort_ok(w, Sort::Identifier, IDENTIFIERS, ROW_SIZE, wide(word(w, 3)))
        && defs_ok(w)
        && parts_ok(w)
}

// ── components ──

#[tactic(auto, using(std::proofs::lemmas::Bool::Decides::nat_tests))]
fn mark_ok(l: u32, m: u32) -> bool
    ensures { result ≡ (eqb m 64 || ltb m l) }
{
    m == 64 || m < l
}

// The words of the component at position i but for its values.
#[tactic(auto, using(std::proofs::lemmas::Bool::Decides::nat_tests), unfolding(crate::specs::Tests::head_fine, table::specs::Meaning::comp_in, table::specs::Valid::mark_ok, table::specs::Valid::wait_ok))]
fn head_ok(w: &Script, c: &Words, i: usize) -> bool
    requires { i < 256 }
    ensures { result ≡ head_fine w.now (comp_in c.now i) }
{
    let o = i * COMP_SIZE;
    let l = word(w, 1);
    c[o] < l
        && mark_ok(l, c[o + 1])
        && c[o + 2] < word(w, 0)
        && timer_ok(c[o + 3])
        && c[o + 12] <= LONGEST
}

// 1 for a value above m.
#[tactic(auto, using(std::proofs::lemmas::Bool::Decides::nat_tests))]
fn above(m: u32, v: u32) -> u32
    ensures { (result ≤ 1) × (eqb result 0 ≡ ltb v (m + 1)) }
{
    u32::from(m < v)
}

// s, and 1 more for each of two values that is above m.
fn count_two(s: u32, m: u32, x: u32, y: u32) -> u32
    requires { s ≤ 1000 }
    ensures { (result ≤ s + 2) × (eqb result 0 ≡ (eqb s 0 && (ltb x (m + 1) && ltb y (m + 1)))) }
{
    s + above(m, x) + above(m, y)
}

// How many values are above the last location, in four sums, so that four values are compared at once.
#[derive(Clone, Copy)]
struct Sums {
    a: u32,
    b: u32,
    c: u32,
    d: u32,
}

// The values of the component at position i counted too.
fn count_above(s: Sums, m: u32, c: &Words, i: usize) -> Sums
    requires { (i < 256) × Few 1000 s }
    ensures { Counted (m + 1) (comp_in c.now i) s result }
{
    let o = i * COMP_SIZE;
    Sums {
        a: count_two(s.a, m, c[o + 4], c[o + 8]),
        b: count_two(s.b, m, c[o + 5], c[o + 9]),
        c: count_two(s.c, m, c[o + 6], c[o + 10]),
        d: count_two(s.d, m, c[o + 7], c[o + 11]),
    }
}

// Each component, where m is the last location. The values are counted through to the end, which is cheaper than to stop at the first that is too large.
fn comps_ok(w: &Script, c: &Words, n: usize, m: u32) -> bool
    requires { (n ≤ 256) × (m + 1 ≡ locs_in w.now) }
    ensures { result ≡ every (comp_ok w.now) (comps_of (record { c = c.entry.now; n = n })) }
{
    let mut s = Sums {
        a: 0,
        b: 0,
        c: 0,
        d: 0,
    };
    for i in 0..n {
        if !head_ok(w, c, i) {
            return false;
        }
        s = count_above(s, m, c, i);
    }
    s.a + s.b + s.c + s.d == 0
}

// The components of a state.
#[tactic(auto, using(std::proofs::lemmas::Bool::Decides::nat_tests, crate::proofs::ValidWhole::state_laws), unfolding(table::specs::Valid::state_ok))]
pub fn state_ok(w: &Script, c: &Words, n: usize) -> bool
    ensures { result ≡ state_ok w.now (record { c = c.entry.now; n = n }) }
{
    let l = word(w, 1);
    n != 0 && n <= 256 && l != 0 && comps_ok(w, c, n, l - 1)
}

// Question 17, of a state's words and the number of its components: the script, the components, and the total and the count.
#[tactic(auto, unfolding(table::specs::Valid::valid))]
pub fn is_valid(w: &Script, c: &Words, n: usize) -> bool
    ensures { result ≡ valid w.now (record { c = c.entry.now; n = n }) }
{
    script_ok(w) && state_ok(w, c, n) && ledger_ok(c)
}

// The network, if it passes.
pub fn network<'a>(w: &'a Script, c: &'a Words, n: usize) -> Option<Network<'a>>
    ensures { MatchOption result (valid w.now (record { c = c.entry.now; n = n }) ≡ false) (λ net. (net.script ≡ w.entry) × (net.words ≡ c.entry) × (net.n ≡ n)) }
{
    if is_valid(w, c, n) {
        return Some(Network {
            script: w,
            words: c,
            n: n,
        });
    }
    None
}
