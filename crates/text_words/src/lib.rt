// Layer 2, reading and writing: bytes, words and their sorts, over the bytes of a text.
//
// A function that reads something at a position answers with the position behind it, or with None if it does not stand there.
//
// specs/Bytes       what positions stand for: the bytes and tokens left
// specs/Sorts       what classes, sorts and fields stand for
//
// proofs/Lexing     tokens read off bytes
// proofs/Positions  steps over positions: blanks, signs, words, numbers
// proofs/WordSorts  the one sort of a word, and the grammar's tests
#![tactic(auto)]

ghost use Rattle.std.specs.Prelude.{true, ◌≡◌, ◌<◌, ◌-◌, drop};
ghost use Rattle.terms.specs.Names.{same_name};
ghost use Rattle.terms.specs.Same.{every};
ghost use Rattle.terms.specs.Characters.{class_of, is_alnum, is_digit, is_lower, is_capital};
ghost use Rattle.terms.specs.Letters.{first_is};
ghost use Rattle.text.specs.Tokens.{lex, plain};
ghost use Rattle.text.specs.Grammar.{the, named};
ghost use Rattle.text_words.specs.Bytes.{after_blanks, Run, Counted, IsSign, ended, skim, digit_at};
ghost use Rattle.text_words.specs.Sorts.{class_is, sort_of, suits_of, fits};

use terms::characters::{is_alnum, is_blank, is_digit};

// ---- bytes ----
// A byte's class, by ranges.
#[derive(Clone, Copy)]
pub enum Class {
    Capital,
    Small,
    Digit,
    Bracket,
    Blank,
    Other,
}

pub fn class_of(b: u8) -> Class
    ensures { class_is result ≡ class_of b }
{
    match b {
        b'A'..=b'Z' => Class::Capital,
        b'a'..=b'z' => Class::Small,
        b'0'..=b'9' => Class::Digit,
        b'(' | b')' | b'[' | b']' => Class::Bracket,
        b' ' | b'\n' => Class::Blank,
        _ => Class::Other,
    }
}

// ---- tokens ----
// The first position from `at` on that holds no blank, or the end of the text.
pub fn skip_blanks(s: &[u8], at: usize) -> usize
    ensures { drop result s.now ≡ after_blanks (drop at s.now) }
{
    for i in at..s.len() {
        if !is_blank(s[i]) {
            return i;
        }
    }
    s.len()
}

// The end of the letters and digits that begin at `at`.
pub fn word_end(s: &[u8], at: usize) -> usize
    ensures { Run s.now at result }
{
    for i in at..s.len() {
        if !is_alnum(s[i]) {
            return i;
        }
    }
    at.max(s.len())
}

// The sign c.
pub fn eat(s: &[u8], at: usize, c: u8) -> Option<usize>
    requires { IsSign c }
    ensures { ended s.now result ≡ the c (lex (drop at s.now)) }
{
    let a = skip_blanks(s, at);
    if a < s.len() && s[a] == c {
        return Some(a + 1);
    }
    None
}

// ---- words ----
// The letters k; a word and a literal of another length are of two types for `==` itself.
pub fn is_same(w: &[u8], k: &[u8]) -> bool
    ensures { result ≡ same_name w.now k.now }
{
    w == k
}

pub fn all_digits(w: &[u8]) -> bool
    ensures { result ≡ every digit_at w.now }
{
    w.iter().all(|b| is_digit(*b))
}

// The number, or some number above 1,000,000 if it is above.
pub fn number_of(w: &[u8]) -> u32
    ensures { Counted w.now result }
{
    let mut n: u32 = 0;
    for b in w {
        if 1000000 < n {
            return n;
        }
        n = 10 * n + u32::from(b.saturating_sub(b'0'));
    }
    n
}

// Not empty, and no leading zero.
pub fn is_plain(w: &[u8]) -> bool
    ensures { result ≡ plain w.now }
{
    match w {
        [] => false,
        [_] => true,
        [first, ..] => *first != b'0',
    }
}

// ---- sorts of words ----
// A word is a keyword, a name that begins small, a name that begins with a capital, a number of ticks, or nothing of use.
#[derive(Clone, Copy)]
pub enum Sort {
    Stop,
    Go,
    Out,
    In,
    Inf,
    Small,
    Location,
    Ticks,
    Other,
}

// The longest name.
const LONGEST: usize = 16;

// The sort of a word that begins with a small letter.
fn small_sort(w: &[u8]) -> Sort
    requires { (first_is is_lower w.now ≡ true) × (every is_alnum w.now ≡ true) }
    ensures { result ≡ sort_of w.now }
{
    if is_same(w, b"stop") {
        return Sort::Stop;
    }
    if is_same(w, b"go") {
        return Sort::Go;
    }
    if is_same(w, b"out") {
        return Sort::Out;
    }
    if is_same(w, b"in") {
        return Sort::In;
    }
    if is_same(w, b"inf") {
        return Sort::Inf;
    }
    if w.len() <= LONGEST {
        return Sort::Small;
    }
    Sort::Other
}

// The sort of a word that begins with a capital.
fn capital_sort(w: &[u8]) -> Sort
    requires { (first_is is_capital w.now ≡ true) × (every is_alnum w.now ≡ true) }
    ensures { result ≡ sort_of w.now }
{
    if is_same(w, b"S") {
        return Sort::Other;
    }
    if w.len() <= LONGEST {
        return Sort::Location;
    }
    Sort::Other
}

// The sort of a word that begins with a digit.
fn digit_sort(w: &[u8]) -> Sort
    requires { first_is is_digit w.now ≡ true }
    ensures { result ≡ sort_of w.now }
{
    if is_plain(w) && all_digits(w) && number_of(w) <= 1000000 {
        return Sort::Ticks;
    }
    Sort::Other
}

pub fn sort_of(w: &[u8]) -> Sort
    requires { every is_alnum w.now ≡ true }
    ensures { result ≡ sort_of w.now }
{
    let [first, ..] = w else {
        return Sort::Other;
    };
    match class_of(*first) {
        Class::Small => small_sort(w),
        Class::Capital => capital_sort(w),
        Class::Digit => digit_sort(w),
        Class::Bracket | Class::Blank | Class::Other => Sort::Other,
    }
}

// ---- fields ----
// What a place of the grammar wants: a variable or channel, a location or variable (an identifier has the same form), a timer, a location.
#[derive(Clone, Copy)]
pub enum Field {
    Small,
    Value,
    Timer,
    Location,
}

fn suits(k: Sort, f: Field) -> bool
    ensures { result ≡ suits_of k f }
{
    match f {
        Field::Small => matches!(k, Sort::Small),
        Field::Value => matches!(k, Sort::Small | Sort::Location),
        Field::Timer => matches!(k, Sort::Inf | Sort::Ticks),
        Field::Location => matches!(k, Sort::Location),
    }
}

// A word of the sort that the field wants.
pub fn field_at(s: &[u8], at: usize, f: Field) -> Option<usize>
    ensures { ended s.now result ≡ skim (named (fits f)) (lex (drop at s.now)) }
{
    let a = skip_blanks(s, at);
    let e = word_end(s, a);
    if a < e && suits(sort_of(&s[a..e]), f) {
        return Some(e);
    }
    None
}
