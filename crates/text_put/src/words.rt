// Names, timers and fields of a text.
ghost use Rattle.std.specs.Prelude.{List, ◌∷◌, ◌≡◌, drop};
ghost use Rattle.terms.specs.Names.{Name};
ghost use Rattle.terms.specs.Characters.{is_capital};
ghost use Rattle.terms.specs.Letters.{first_is};
ghost use Rattle.text.specs.Tokens.{Token, lex, comma};
ghost use Rattle.text.specs.Tokens.Token.{word, sign};
ghost use Rattle.text.specs.Syntax.{Span};
ghost use Rattle.text.specs.Tree.{timer_of};
ghost use Rattle.text.specs.Write.{timer_t};
ghost use Rattle.text.specs.WellFormed.{WellTimer};
ghost use Rattle.text_build.specs.Rows.{timer_word};
ghost use Rattle.text_put.specs.Found.{Gives, NameIs, TimerIs, PairIs};

use super::{Named, Pair, Timed};
use terms::characters::is_capital;
use text_words::{eat, is_same, number_of, skip_blanks, word_end};

// Does the word begin with a capital?
fn begins_capital(w: &[u8]) -> bool
    ensures { result ≡ first_is is_capital w.now }
{
    match w {
        [] => false,
        [first, ..] => is_capital(*first),
    }
}

// The next word, as a name.
pub fn name_at(s: &[u8], at: usize) -> Option<Named>
    ensures { (x : Name) (us : List Token) → lex (drop at s.now) ≡ word x ∷ us → Gives (λ r. NameIs s.now r x us) result }
{
    let a = skip_blanks(s, at);
    let e = word_end(s, a);
    if a < e {
        let k = text_build::key_of(&s[a..e]);
        let b = begins_capital(&s[a..e]);
        return Some(Named {
            end: e,
            key: k,
            capital: b,
        });
    }
    None
}

// The word of a timer in a row, by the timer's own constructor: a text that has the form has no number above its range.
fn timer_of(w: &[u8]) -> Option<u32>
    ensures { (t : Span) (us : List Token) → WellTimer (timer_of t) → word w.now ∷ us ≡ timer_t t us → Gives (λ r. r ≡ timer_word (timer_of t)) result }
{
    if is_same(w, b"inf") {
        return Some(terms::Timer::INF.raw);
    }
    let t = terms::Timer::new(number_of(w))?;
    Some(t.raw)
}

// The next word, as a timer.
pub fn timer_at(s: &[u8], at: usize) -> Option<Timed>
    ensures { (t : Span) (us : List Token) → WellTimer (timer_of t) → lex (drop at s.now) ≡ timer_t t us → Gives (λ r. TimerIs s.now r t us) result }
{
    let a = skip_blanks(s, at);
    let e = word_end(s, a);
    if a < e {
        let t = timer_of(&s[a..e])?;
        return Some(Timed { end: e, t: t });
    }
    None
}

// A timer and a name, each with its comma.
pub fn pair_at(s: &[u8], at: usize) -> Option<Pair>
    ensures { (t : Span) (x : Name) (us : List Token) → WellTimer (timer_of t) → lex (drop at s.now) ≡ timer_t t (sign comma ∷ word x ∷ sign comma ∷ us) → Gives (λ r. PairIs s.now r t x us) result }
{
    let t = timer_at(s, at)?;
    let a = eat(s, t.end, b',')?;
    let x = name_at(s, a)?;
    let k = x.key;
    let e = eat(s, x.end, b',')?;
    Some(Pair {
        end: e,
        t: t.t,
        key: k,
        capital: x.capital,
    })
}
