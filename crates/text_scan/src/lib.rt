// Layer 2, reading and writing: questions 1 and 2 over the bytes of a text, and the numbers that questions 3 and 4 limit, in one pass.
//
// A text that is too long is not looked into, so that no text nests deeper than 65,535 bytes allow.
//
// specs/Totals      the numbers of a text, added up
// specs/Counting    the grammar's readers of texts, giving these numbers
// specs/Answers     what the code's answers stand for, and `scan_of`
// specs/Limits      questions 1 to 4 as far as the scan answers them
//
// proofs/Places     the numbers added up are those that `text` defines by places
// proofs/Texts      definitions, located processes and texts as the code goes through them
// proofs/Scanning   what the scan answers, and questions 1 to 4 from it
#![tactic(auto, unfolding(text::specs::Tokens::lex_from, terms::specs::Characters::class_of))]

ghost use Rattle.std.specs.Prelude.{◌≡◌, drop};
ghost use Rattle.terms.specs.Refusals.{code_of};
ghost use Rattle.text.specs.Tokens.{lex};
ghost use Rattle.text.specs.Grammar.{net_next};
ghost use Rattle.text_words.specs.Bytes.{mapped, IsSign};
ghost use Rattle.text_parts.specs.Counts.{capped};
ghost use Rattle.text_parts.specs.Answers.{sized};
ghost use Rattle.text_scan.specs.Totals.{capped_t};
ghost use Rattle.text_scan.specs.Counting.{body_counts, def_counts, located_counts, many_counts, network_counts, text_counts};
ghost use Rattle.text_scan.specs.Answers.{totaled, plus_totals, unread_scan, scan_of};
ghost use Rattle.text_scan.specs.Limits.{limits};

use terms::refusal::Refusal;
use text_parts::{Size, list_of, read_process};
use text_words::{Field, eat, field_at, skip_blanks, word_end};

// Where definitions and located processes end, with their numbers: each stops one past its limit.
#[derive(Clone, Copy)]
pub struct Totals {
    pub end: usize,
    pub nesting: u16,
    pub parts: u16,
    pub components: u16,
    pub definitions: u16,
    pub parameters: u16,
}

// Nothing read yet, from `at` on.
fn nothing(at: usize) -> Totals
    ensures { result ≡ record { end = at; nesting = 0; parts = 0; components = 0; definitions = 0; parameters = 0 } }
{
    Totals {
        end: at,
        nesting: 0,
        parts: 0,
        components: 0,
        definitions: 0,
        parameters: 0,
    }
}

// The two one after the other.
fn plus(a: Totals, b: Totals) -> Totals
    ensures { result ≡ plus_totals a b }
{
    Totals {
        end: b.end,
        nesting: a.nesting.max(b.nesting),
        parts: a.parts.saturating_add(b.parts).min(4097),
        components: a.components.saturating_add(b.components).min(257),
        definitions: a.definitions.saturating_add(b.definitions).min(33),
        parameters: a.parameters.max(b.parameters),
    }
}

// A process and the sign c.
fn body(s: &[u8], at: usize, c: u8) -> Option<Size>
    requires { IsSign c }
    ensures { sized s.now result ≡ mapped capped (body_counts c (lex (drop at s.now))) }
{
    let r = read_process(s, at)?;
    let e = eat(s, r.end, c)?;
    Some(Size { end: e, ..r })
}

// `id = P .` or `id(u1,..) = P .`
fn def_at(s: &[u8], at: usize) -> Option<Totals>
    ensures { totaled s.now result ≡ mapped capped_t (def_counts (lex (drop at s.now))) }
{
    let a = field_at(s, at, Field::Value)?;
    let us = list_of(s, a, Field::Small)?;
    let e = eat(s, us.end, b'=')?;
    let r = body(s, e, b'.')?;
    Some(Totals {
        end: r.end,
        nesting: r.nesting,
        parts: r.parts,
        components: 0,
        definitions: 1,
        parameters: us.count,
    })
}

// `L[P]`
fn located_at(s: &[u8], at: usize) -> Option<Totals>
    ensures { totaled s.now result ≡ mapped capped_t (located_counts (lex (drop at s.now))) }
{
    let a = field_at(s, at, Field::Location)?;
    let b = eat(s, a, b'[')?;
    let r = body(s, b, b']')?;
    Some(Totals {
        end: r.end,
        nesting: r.nesting,
        parts: r.parts,
        components: r.width,
        definitions: 0,
        parameters: 0,
    })
}

// `L[P] | M[P]`
fn all_located(s: &[u8], at: usize) -> Option<Totals>
    ensures { totaled s.now result ≡ mapped capped_t (many_counts (lex (drop at s.now))) }
{
    let mut here = at;
    let mut t = nothing(at);
    loop {
        t = plus(t, located_at(s, here)?);
        let Some(q) = eat(s, t.end, b'|') else {
            return Some(t);
        };
        here = q;
    }
}

// `L[P] | M[P] .` and nothing more.
fn network_at(s: &[u8], at: usize) -> Option<Totals>
    ensures { totaled s.now result ≡ mapped capped_t (network_counts (lex (drop at s.now))) }
{
    let t = all_located(s, at)?;
    let d = eat(s, t.end, b'.')?;
    let e = skip_blanks(s, d);
    if e < s.len() {
        return None;
    }
    Some(Totals { end: d, ..t })
}

// Does a network come next?
pub fn net_next(s: &[u8], at: usize) -> bool
    ensures { result ≡ net_next (lex (drop at s.now)) }
{
    let a = skip_blanks(s, at);
    let e = word_end(s, a);
    a < e && eat(s, e, b'[').is_some()
}

// Definitions, then a network.
fn text_at(s: &[u8], at: usize) -> Option<Totals>
    ensures { totaled s.now result ≡ mapped capped_t (text_counts (lex (drop at s.now))) }
{
    let mut t = nothing(at);
    while !net_next(s, t.end) {
        t = plus(t, def_at(s, t.end)?);
    }
    Some(plus(t, network_at(s, t.end)?))
}

// Whether a text is short enough (1) and of the form (2), and its numbers, each at most one past its limit; all 0 if it is not.
#[derive(Clone, Copy)]
pub struct Scanned {
    pub short: bool,
    pub form: bool,
    pub nesting: u16,
    pub definitions: u16,
    pub parameters: u16,
    pub parts: u16,
    pub components: u16,
}

// A text that is too long, or not of the form: all numbers are 0.
fn unread(short: bool) -> Scanned
    ensures { result ≡ unread_scan short }
{
    Scanned {
        short: short,
        form: false,
        nesting: 0,
        definitions: 0,
        parameters: 0,
        parts: 0,
        components: 0,
    }
}

pub fn scan(text: &[u8]) -> Scanned
    ensures { result ≡ scan_of text.now }
{
    if 65535 < text.len() {
        return unread(false);
    }
    let Some(t) = text_at(text, 0) else {
        return unread(true);
    };
    Scanned {
        short: true,
        form: true,
        nesting: t.nesting,
        definitions: t.definitions,
        parameters: t.parameters,
        parts: t.parts,
        components: t.components,
    }
}

// Questions 1 to 3, and 4 as far as the scan knows it.
pub fn limits(c: Scanned) -> Result<(), Refusal>
    ensures { code_of result ≡ limits c }
{
    if !c.short {
        return Err(Refusal::TooLong);
    }
    if !c.form {
        return Err(Refusal::NotOfForm);
    }
    if 32 < c.nesting {
        return Err(Refusal::TooDeep);
    }
    if 32 < c.definitions || 4 < c.parameters || 4096 < c.parts || 256 < c.components {
        return Err(Refusal::TooMany);
    }
    Ok(())
}
