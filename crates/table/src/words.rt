// Reading a script: words, a part's fields, heads, definitions, names.
ghost use Rattle.std.specs.Prelude.{◌≡◌, ◌+◌, ◌*◌, ◌<◌, get_or};
ghost use Rattle.terms.specs.Names.{same_name};
ghost use Rattle.table.specs.Words.{row_size, parts_at, head_at, arg_at, next_at, low_at, arity_of, body_of, name_at};
ghost use Rattle.table.specs.Tests.{key_name};

use super::{
    ARG_FIELD, BODIES, DEFINITIONS, FIRST_FIELD, Head, KIND_FIELD, Key, LAST_NAME, LOW_FIELD,
    NAME_FIELD, NEXT_FIELD, PARTS, ROW_SIZE, SECOND_FIELD, Script, TIMER_FIELD, VALUE_FIELD,
};

// A word as an index.
pub fn wide(x: u32) -> usize
    ensures { result ≡ x }
{
    x as usize
}

// The word at i; 0 past the end.
pub fn word(w: &Script, i: usize) -> u32
    ensures { result ≡ get_or w.now i 0 }
{
    w.get(i).copied().unwrap_or(0)
}

// Field k of the part at i.
pub fn field(w: &Script, i: usize, k: usize) -> u32
    requires { (i < 4096) × (k < row_size) }
    ensures { result ≡ get_or w.now (parts_at + i * row_size + k) 0 }
{
    w[PARTS + i * ROW_SIZE + k]
}

pub fn head_at(w: &Script, i: usize) -> Head
    requires { i < 4096 }
    ensures { result ≡ head_at w.now i }
{
    match field(w, i, KIND_FIELD) {
        1 => Head::Go(
            field(w, i, TIMER_FIELD),
            field(w, i, VALUE_FIELD),
            field(w, i, FIRST_FIELD),
        ),
        2 => Head::Out(
            field(w, i, NAME_FIELD),
            field(w, i, TIMER_FIELD),
            field(w, i, VALUE_FIELD),
            field(w, i, FIRST_FIELD),
            field(w, i, SECOND_FIELD),
        ),
        3 => Head::In(
            field(w, i, NAME_FIELD),
            field(w, i, TIMER_FIELD),
            field(w, i, VALUE_FIELD),
            field(w, i, FIRST_FIELD),
            field(w, i, SECOND_FIELD),
        ),
        4 => Head::Call(field(w, i, NAME_FIELD), field(w, i, VALUE_FIELD)),
        _ => Head::Stop,
    }
}

// Argument k of the call at i.
pub fn arg_at(w: &Script, i: usize, k: usize) -> u32
    requires { (i < 4096) × (k < 4) }
    ensures { result ≡ arg_at w.now i k }
{
    field(w, i, ARG_FIELD + k)
}

pub fn next_at(w: &Script, i: usize) -> u32
    requires { i < 4096 }
    ensures { result ≡ next_at w.now i }
{
    field(w, i, NEXT_FIELD)
}

pub fn low_at(w: &Script, i: usize) -> u32
    requires { i < 4096 }
    ensures { result ≡ low_at w.now i }
{
    field(w, i, LOW_FIELD)
}

pub fn arity_of(w: &Script, d: usize) -> u32
    requires { d < 32 }
    ensures { result ≡ arity_of w.now d }
{
    w[DEFINITIONS + d * ROW_SIZE]
}

pub fn body_of(w: &Script, d: usize) -> u32
    requires { d < 32 }
    ensures { result ≡ body_of w.now d }
{
    w[BODIES + d * ROW_SIZE]
}

// The words of the name that stands at o.
pub fn key_at(w: &Script, o: usize) -> Key
    ensures { key_name result ≡ name_at w.now o }
{
    if o < wide(LAST_NAME) {
        Key {
            a: w[o],
            b: w[o + 1],
            c: w[o + 2],
            d: w[o + 3],
        }
    } else {
        key_end(w, o)
    }
}

// The same where the name runs past the end, which is read as zeros.
fn key_end(w: &Script, o: usize) -> Key
    ensures { key_name result ≡ name_at w.now o }
{
    Key {
        a: word(w, o),
        b: word(w, o.saturating_add(1)),
        c: word(w, o.saturating_add(2)),
        d: word(w, o.saturating_add(3)),
    }
}

// Are two names the same? The words are compared, and the promise is about letters.
pub fn same_key(x: Key, y: Key) -> bool
    ensures { result ≡ same_name (key_name x) (key_name y) }
{
    x == y
}

// Is x the name at o? Most names differ in their first word.
pub fn is_named(w: &Script, o: usize, x: Key) -> bool
    ensures { result ≡ same_name (name_at w.now o) (key_name x) }
{
    word(w, o) == x.a && same_key(key_at(w, o), x)
}

// Do o1 and o2 have the same name?
pub fn same_name(w: &Script, o1: usize, o2: usize) -> bool
    ensures { result ≡ same_name (name_at w.now o1) (name_at w.now o2) }
{
    same_key(key_at(w, o1), key_at(w, o2))
}
