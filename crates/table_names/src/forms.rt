// The form of a name, told by its words: most names are one word, of which the highest bytes are zero.
ghost use Rattle.std.specs.Prelude.{◌≡◌, true, [], ◌%◌};
ghost use Rattle.terms.specs.Same.{every};
ghost use Rattle.terms.specs.Characters.{class_of, is_alnum};
ghost use Rattle.terms.specs.Letters.{member, reserved, is_name};
ghost use Rattle.table.specs.Words.{four_bytes, strip, name_at};
ghost use Rattle.table.specs.Tests.{key_name};
ghost use Rattle.table_names.specs.Tests.{first_of};

use crate::Sort;
use table::words::key_at;
use table::{Key, Script};
use terms::characters::{is_alnum, is_capital, is_letter, is_lower};

fn low_byte(x: u32) -> u8
    ensures { result ≡ x % 256 }
{
    (x % 256) as u8
}

// Letters and digits up to the last byte that is not zero?
fn solid_word(x: u32) -> bool
    ensures { result ≡ every is_alnum (strip (four_bytes x [])) }
{
    // over what is left of the word, and no index: how many bytes there are is not known before
    let mut y = x;
    while y != 0 {
        if !is_alnum(low_byte(y)) {
            return false;
        }
        y /= 256;
    }
    true
}

// Four letters and digits?
#[tactic(auto, using(crate::proofs::NamesForm::word_form, std::proofs::lemmas::Bool::Decides::nat_tests))]
fn full_word(x: u32) -> bool
    ensures { result ≡ every is_alnum (four_bytes x []) }
{
    16777216 <= x && solid_word(x)
}

// Letters and digits, where the first is one? Every word before the last that is not zero is full.
#[tactic(auto, using(crate::proofs::NamesForm::letters_form))]
fn solid_key(k: Key) -> bool
    requires { is_alnum (k.a % 256) ≡ true }
    ensures { result ≡ every is_alnum (key_name k) }
{
    if k.d != 0 {
        full_word(k.a) && full_word(k.b) && full_word(k.c) && solid_word(k.d)
    } else if k.c != 0 {
        full_word(k.a) && full_word(k.b) && solid_word(k.c)
    } else if k.b != 0 {
        full_word(k.a) && solid_word(k.b)
    } else {
        solid_word(k.a / 256)
    }
}

// stop, go, in, out, inf, S
#[tactic(auto, using(crate::proofs::NamesForm::reserved_form))]
fn is_reserved(k: Key) -> bool
    ensures { result ≡ member (key_name k) reserved }
{
    matches!(
        k,
        Key {
            a: 1886352499 | 28519 | 28265 | 7632239 | 6712937 | 83,
            b: 0,
            c: 0,
            d: 0,
        }
    )
}

fn first_ok(s: Sort, b: u8) -> bool
    ensures { result ≡ first_of s (class_of b) }
{
    match s {
        Sort::Location => is_capital(b),
        Sort::Small => is_lower(b),
        Sort::Identifier => is_letter(b),
    }
}

// Is it a name of the sort?
#[tactic(auto, using(crate::proofs::NamesForm::whole_form))]
fn is_name(s: Sort, k: Key) -> bool
    ensures { result ≡ is_name (first_of s) (key_name k) }
{
    first_ok(s, low_byte(k.a)) && solid_key(k) && !is_reserved(k)
}

// Is the name that stands at o one of the sort?
pub fn is_name_at(s: Sort, w: &Script, o: usize) -> bool
    ensures { result ≡ is_name (first_of s) (name_at w.now o) }
{
    is_name(s, key_at(w, o))
}
