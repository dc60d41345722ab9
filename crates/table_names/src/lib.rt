// Layer 1, the table: the names of question 17: the form of each sort, and that each is held once.
//
//   src/lib           names at equal distances, of one sort
//   src/forms         the form of a name of each sort
//   specs/Tests       what the contracts of internal functions cite
//   proofs/NamesForm  the form of a name by its words
//   proofs/NamesRows  names at equal distances
#![tactic(auto)]

ghost use Rattle.std.specs.Prelude.{◌≡◌, ◌&&◌, ℕ, ◌+◌, ◌<◌, ◌≤◌, drop};
ghost use Rattle.terms.specs.Same.{every};
ghost use Rattle.terms.specs.Letters.{member, is_name, distinct};
ghost use Rattle.table.specs.Words.{name_at, row_size};
ghost use Rattle.table.specs.Meaning.{list_from};
ghost use Rattle.table.specs.Tests.{row_name};
ghost use Rattle.table_names.specs.Tests.{first_of, Mixed, Noted};

use forms::is_name_at;
use table::Script;
use table::words::{is_named, key_at, wide};

pub mod forms;

// The sorts of names, by the form of their first letter; a variable's is that of a channel.
#[derive(Clone, Copy)]
pub enum Sort {
    Location,
    Small,
    Identifier,
}

// Has each of n names that stand s words apart from o on the form of its sort?
fn names_ok(w: &Script, f: Sort, o: usize, s: usize, n: usize) -> bool
    requires { (o ≤ 2000) × (s ≤ row_size) × (n ≤ 64) }
    ensures { result ≡ every (is_name (first_of f)) (list_from 0 n (row_name w.now o s)) }
{
    (0..n).all(|j| is_name_at(f, w, o + j * s))
}

// A number below 1,013 from the words of the name at o: names of which these differ are different.
fn mixed(w: &Script, o: usize) -> usize
    ensures { Mixed (name_at w.now o) result }
{
    let x = key_at(w, o);
    wide((x.a ^ x.b ^ x.c ^ x.d) % 1013)
}

// Does name i of these stand among those after it?
fn named_again(w: &Script, o: usize, s: usize, n: usize, i: usize) -> bool
    requires { (o ≤ 2000) × (s ≤ row_size) × (n ≤ 64) × (i < n) }
    ensures { result ≡ member (row_name w.now o s i) (drop (i + 1) (list_from 0 n (row_name w.now o s))) }
{
    let x = key_at(w, o + i * s);
    (i + 1..n).any(|j| is_named(w, o + j * s, x))
}

// The same, where the numbers of those after it were noted, and h is its own: only a name whose number was noted is compared with the others.
fn held_again(
    w: &Script,
    seen: &[u8; 1013],
    h: usize,
    o: usize,
    s: usize,
    n: usize,
    i: usize,
) -> bool
    requires { (o ≤ 2000) × (s ≤ row_size) × (n ≤ 64) × (i < n) × Mixed (row_name w.now o s i) h × ((k : ℕ) → i + 1 ≤ k → k < n → Noted seen.now (row_name w.now o s k)) }
    ensures { result ≡ member (row_name w.now o s i) (drop (i + 1) (list_from 0 n (row_name w.now o s))) }
{
    seen[h] != 0 && named_again(w, o, s, n, i)
}

// Is each of few names held once? Each is compared with those after it.
fn few_apart(w: &Script, o: usize, s: usize, n: usize) -> bool
    requires { (o ≤ 2000) × (s ≤ row_size) × (n ≤ 64) }
    ensures { result ≡ distinct (list_from 0 n (row_name w.now o s)) }
{
    (0..n).all(|i| !named_again(w, o, s, n, i))
}

// The same of many. From the last on, each is looked for among those after it.
fn many_apart(w: &Script, o: usize, s: usize, n: usize) -> bool
    requires { (o ≤ 2000) × (s ≤ row_size) × (n ≤ 64) }
    ensures { result ≡ distinct (list_from 0 n (row_name w.now o s)) }
{
    let mut seen = [0u8; 1013];
    for i in (0..n).rev() {
        let h = mixed(w, o + i * s);
        if held_again(w, &seen, h, o, s, n, i) {
            return false;
        }
        seen[h] = 1;
    }
    true
}

// Is each of these names held once?
pub fn all_apart(w: &Script, o: usize, s: usize, n: usize) -> bool
    requires { (o ≤ 2000) × (s ≤ row_size) × (n ≤ 64) }
    ensures { result ≡ distinct (list_from 0 n (row_name w.now o s)) }
{
    if n <= 8 {
        few_apart(w, o, s, n)
    } else {
        many_apart(w, o, s, n)
    }
}

pub fn sort_ok(w: &Script, f: Sort, o: usize, s: usize, n: usize) -> bool
    requires { (o ≤ 2000) × (s ≤ row_size) × (n ≤ 64) }
    ensures { result ≡ (every (is_name (first_of f)) (list_from 0 n (row_name w.now o s)) && distinct (list_from 0 n (row_name w.now o s))) }
{
    names_ok(w, f, o, s, n) && all_apart(w, o, s, n)
}
