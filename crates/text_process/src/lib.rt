// Layer 2, reading and writing: parts and processes of a table as text, on a page.
//
// A part is written up to its first process, then the processes of it, which part writer and process writer write in turn. The place in the
// table is the falling number. Values are eight numbers: below 64 the location that a slot holds, else its own name is written.
//
// specs/Forms    the bytes of values, parts and processes
// specs/Values   a place of the table under the values of some slots
//
// proofs/Values  slots with values are a substitution
// proofs/Heads   the text of a part by its head, under the values of slots
// proofs/Places  the places of a definition's body and of a component's part
#![tactic(auto)]

ghost use Rattle.std.specs.Prelude.{◌≡◌, true, ◌∷◌, ◌++◌, map, ◌≤◌, ◌<◌, length, take, set};
ghost use Rattle.terms.specs.Names.{bytes};
ghost use Rattle.terms.specs.Clock.{ticks_of};
ghost use Rattle.table.specs.Words.{name_at, chan_name, def_name, names_at, arg_at};
ghost use Rattle.table.specs.Valid.{ref_ok};
ghost use Rattle.text_letters.specs.Page.{Adds};
ghost use Rattle.text_letters.specs.Forms.{listed, fields_text};
ghost use Rattle.text_process.specs.Forms.{value_text, open_text, part_text, process_text};
ghost use Rattle.text_process.specs.Values.{Places, value_seen, part_seen, process_seen};

use table::words::{arg_at, field, head_at, next_at, wide};
use table::{
    CHANNELS, Head, IDENTIFIERS, LOCATIONS, NAME_SIZE, OWNS, ROW_SIZE, SLOT_FIELD, Script,
    TIMER_FIELD,
};
use text_letters::Page;

// Where the name stands that a value at the part i is written as.
fn value_at(w: &Script, i: usize, vals: &[u32; 8], v: u32) -> usize
    requires { (i < 4096) × (length vals.now ≡ 8) }
    ensures { ref_ok w.now (names_at w.now i) v ≡ true → name_at w.now result ≡ value_text (value_seen w.now i vals.now v) }
{
    let n = wide(v);
    if n < 64 {
        return LOCATIONS + n * NAME_SIZE;
    }
    let k = n - 64;
    if 7 < k {
        // no slot, and so no value of a valid table
        return 0;
    }
    let x = wide(vals[k]);
    if x < 64 {
        return LOCATIONS + x * NAME_SIZE;
    }
    wide(field(w, i, SLOT_FIELD + k))
}

// The values in the P of an input of the slot k: the slot holds none.
fn without(vals: &[u32; 8], k: u32) -> [u32; 8]
    requires { length vals.now ≡ 8 }
    ensures { result ≡ set vals.now k 64 }
{
    let mut r = *vals;
    let j = wide(k);
    if j < 8 {
        r[j] = 64;
    }
    r
}

// Where the name stands that argument k of the call at i is written as.
fn arg_name(w: &Script, i: usize, vals: &[u32; 8], k: usize) -> usize
    requires { (i < 4096) × (k < 4) × (length vals.now ≡ 8) }
    ensures { ref_ok w.now (names_at w.now i) (arg_at w.now i k) ≡ true → name_at w.now result ≡ value_text (value_seen w.now i vals.now (arg_at w.now i k)) }
{
    value_at(w, i, vals, arg_at(w, i, k))
}

// `go(t,x,`, where the name x stands at the word o.
fn open_one(w: &Script, t: u32, o: usize, page: &mut Page)
    ensures { Adds page.old (bytes "go(" ++ fields_text (ticks_of t) (name_at w.now o)) page.new }
{
    page.put_all(b"go(");
    page.put_fields(w, t, o);
}

// The word s, which is `out(` or `in(`, then `c,t,x,`, where the name x stands at the word o.
fn open_two(w: &Script, s: &[u8], c: u32, t: u32, o: usize, page: &mut Page)
    ensures { Adds page.old (s.now ++ (chan_name w.now c ++ (44 ∷ fields_text (ticks_of t) (name_at w.now o)))) page.new }
{
    page.put_all(s);
    page.put_name(w, CHANNELS + wide(c) * NAME_SIZE);
    page.put(b',');
    page.put_fields(w, t, o);
}

// A call of the definition d with the names that stand at the words of the list.
fn put_call(w: &Script, d: u32, words: &[usize], page: &mut Page)
    ensures { Adds page.old (def_name w.now d ++ listed (map (name_at w.now) words.now)) page.new }
{
    page.put_name(w, IDENTIFIERS + wide(d) * ROW_SIZE);
    page.put_list(w, words);
}

// The part at i with the timer t, up to its first process.
fn put_open(w: &Script, i: usize, t: u32, vals: &[u32; 8], page: &mut Page)
    requires { Places w.now i vals.now }
    ensures { Adds page.old (open_text (part_seen w.now i t vals.now)) page.new }
{
    match head_at(w, i) {
        Head::Stop => page.put_all(b"stop"),
        Head::Go(_, v, _) => open_one(w, t, value_at(w, i, vals, v), page),
        Head::Out(c, _, v, _, _) => open_two(w, b"out(", c, t, value_at(w, i, vals, v), page),
        Head::In(c, _, _, _, _) => open_two(w, b"in(", c, t, OWNS + i * ROW_SIZE, page),
        Head::Call(d, n) => {
            let o = [
                arg_name(w, i, vals, 0),
                arg_name(w, i, vals, 1),
                arg_name(w, i, vals, 2),
                arg_name(w, i, vals, 3),
            ];
            put_call(w, d, &o[..wide(n)], page);
        }
    }
}

// The part at i with the timer t.
#[cycle(write_part_write_process)]
pub fn write_part(w: &Script, i: usize, t: u32, vals: &[u32; 8], page: &mut Page)
    requires { Places w.now i vals.now }
    ensures { Adds page.old (part_text (part_seen w.now i t vals.now)) page.new }
{
    put_open(w, i, t, vals, page);
    match head_at(w, i) {
        Head::Stop => {}
        Head::Go(_, _, p) => {
            write_process(w, wide(p), vals, page);
            page.put(b')');
        }
        Head::Out(_, _, _, p, q) => {
            write_process(w, wide(p), vals, page);
            page.put(b',');
            write_process(w, wide(q), vals, page);
            page.put(b')');
        }
        Head::In(_, _, k, p, q) => {
            let inner = without(vals, k);
            write_process(w, wide(p), &inner, page);
            page.put(b',');
            write_process(w, wide(q), vals, page);
            page.put(b')');
        }
        Head::Call(_, _) => {}
    }
}

// The process at i, part by part.
#[cycle(write_part_write_process)]
pub fn write_process(w: &Script, i: usize, vals: &[u32; 8], page: &mut Page)
    requires { Places w.now i vals.now }
    ensures { Adds page.old (process_text (process_seen w.now i vals.now)) page.new }
{
    let mut j = i;
    loop {
        write_part(w, j, field(w, j, TIMER_FIELD), vals, page);
        let n = wide(next_at(w, j));
        if n == 0 {
            return;
        }
        page.put_bar();
        j = n - 1;
    }
}
