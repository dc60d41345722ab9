// Values by number: a location of the script, entered if it is new, or the slot of a variable.
ghost use Rattle.std.specs.Prelude.{◌≡◌, ◌≤◌};
ghost use Rattle.table.specs.Tests.{key_name};
ghost use Rattle.table.specs.Valid.{index};
ghost use Rattle.text_build.specs.Rows.{scope_names};
ghost use Rattle.text_build.specs.Put.{offsets};
ghost use Rattle.text_put.specs.Found.{Gives, ValueBy, with_word, ValuesAt, values_of, ListAt, ArgsAre};

use super::Args;
use super::words::name_at;
use table::{Key, LOCATIONS, Script};
use text_build::Scope;
use text_words::eat;

// The slot of the name k: its first index in the scope; the scope's size if it is not there.
pub fn slot(w: &Script, sc: Scope, k: Key) -> usize
    requires { sc.n ≤ 8 }
    ensures { result ≡ index (scope_names w.now (offsets sc)) (key_name k) }
{
    let n = sc.n;
    let at = sc.at;
    for j in 0..n {
        let o = table::words::wide(at[j]);
        if table::words::is_named(w, o, k) {
            return j;
        }
    }
    n
}

// The number of the value with the name k, which is a location if it begins with a capital.
pub(crate) fn value_in(w: &mut Script, sc: Scope, k: Key, capital: bool) -> u32
    requires { sc.n ≤ 8 }
    ensures { ValueBy w.old w.new sc k capital result }
{
    if capital {
        let l = text_build::number(w, LOCATIONS, 1, k);
        return l as u32;
    }
    let j = slot(w, sc, k);
    (64 + j) as u32
}

// Where a row has fewer words than four.
pub(crate) const NO_WORDS: Key = Key {
    a: 0,
    b: 0,
    c: 0,
    d: 0,
};

// The word number n of four, replaced.
fn with_word(k: Key, n: u32, v: u32) -> Key
    ensures { result ≡ with_word k n v }
{
    match n {
        0 => Key { a: v, ..k },
        1 => Key { b: v, ..k },
        2 => Key { c: v, ..k },
        3 => Key { d: v, ..k },
        _ => k,
    }
}

// Values joined by commas, and `)`.
fn args_from(s: &[u8], at: usize, w: &mut Script, sc: Scope) -> Option<Args>
    requires { (sc.n ≤ 8) × ValuesAt s.now at }
    ensures { (x : ValuesAt s.now at) → Gives (λ r. ArgsAre s.now w.old w.new sc r (values_of x) x.left) result }
{
    let mut here = at;
    let mut n: u32 = 0;
    let mut k = NO_WORDS;
    loop {
        let x = name_at(s, here)?;
        let y = x.key;
        let v = value_in(w, sc, y, x.capital);
        k = with_word(k, n, v);
        n = n.saturating_add(1).min(5);
        let Some(b) = eat(s, x.end, b',') else {
            let e = eat(s, x.end, b')')?;
            return Some(Args {
                end: e,
                n: n,
                first: k,
            });
        };
        here = b;
    }
}

// Nothing, or values in brackets.
pub(crate) fn args(s: &[u8], at: usize, w: &mut Script, sc: Scope) -> Option<Args>
    requires { (sc.n ≤ 8) × ListAt s.now at }
    ensures { (x : ListAt s.now at) → Gives (λ r. ArgsAre s.now w.old w.new sc r x.what x.left) result }
{
    match eat(s, at, b'(') {
        None => Some(Args {
            end: at,
            n: 0,
            first: NO_WORDS,
        }),
        Some(a) => args_from(s, a, w, sc),
    }
}
