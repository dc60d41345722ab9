// Layer 3, the call `same`: are two networks in their table form the same?
//
// specs/Answer   what the call answers
// specs/Pieces   the pieces in which components are compared
// specs/Unused   the components not yet matched
//
// comps  components
//
// proofs/Parted   a component of a table in its pieces
// proofs/Matched  the components of one network matched with the unused ones of another
#![tactic(auto)]

mod comps;

ghost use Rattle.std.specs.Prelude.{◌≡◌, true, ◌&&◌, eqb};
ghost use Rattle.terms.specs.Refusals.{answer_of};
ghost use Rattle.terms.specs.Same.{same};
ghost use Rattle.table.specs.Words.{edition_in};
ghost use Rattle.table.specs.Meaning.{network_of};
ghost use Rattle.table.specs.Valid.{valid};
ghost use Rattle.calls_same.specs.Answer.{same_answer, compared};

use calls_alike::defs::defs_within;
use comps::same_comps;
use table::words::word;
use table::{EDITION, Script, Words};
use table_valid::is_valid;
use terms::refusal::Refusal;

// What the call returns: 0 or the number of the question answered by no, and whether the networks are the same.
#[repr(C)]
#[derive(Clone, Copy)]
pub struct Compared {
    pub code: u32,
    pub yes: bool,
}

// The answer in the call's form.
fn answer(x: Result<bool, Refusal>) -> Compared
    ensures { result ≡ compared (answer_of (λ y. y) x) }
{
    match x {
        Ok(yes) => Compared { code: 0, yes },
        Err(e) => Compared {
            code: e.number(),
            yes: false,
        },
    }
}

// The call `same`, on the networks of two scripts or of one script twice: 17 of both, then the comparison.
pub fn same(w: &Script, a: &Words, n: usize, v: &Script, b: &Words, m: usize) -> Compared
    ensures { result ≡ compared (same_answer w.now (record { c = a.now; n = n }) v.now (record { c = b.now; n = m })) }
{
    if !is_valid(w, a, n) || !is_valid(v, b, m) {
        return answer(Err(Refusal::NotValid));
    }
    answer(Ok(same_networks(w, a, n, v, b, m)))
}

// The editions of two scripts.
fn same_edition(w: &Script, v: &Script) -> bool
    ensures { result ≡ eqb (edition_in w.now) (edition_in v.now) }
{
    word(w, EDITION) == word(v, EDITION)
}

// Two networks that pass question 17: one edition, the same definitions as a set, and the same components in any order, each as often.
fn same_networks(w: &Script, a: &Words, n: usize, v: &Script, b: &Words, m: usize) -> bool
    requires { (valid w.now (record { c = a.now; n = n }) ≡ true) × (valid v.now (record { c = b.now; n = m }) ≡ true) }
    ensures { result ≡ (eqb (edition_in w.now) (edition_in v.now) && same (network_of w.now (record { c = a.now; n = n })) (network_of v.now (record { c = b.now; n = m }))) }
{
    same_edition(w, v) && defs_within(w, v) && defs_within(v, w) && same_comps(w, a, n, v, b, m)
}
