// Names, timers, values, parts and processes of two tables. A part is compared up to its inner processes first; these and their parts are
// compared in turn, with the place in the first table as the falling number. Nothing in a table is shared, so the time is linear.
ghost use Rattle.std.specs.Prelude.{◌≡◌, true, ◌≤◌, ◌<◌, cond, ltb, length, set};
ghost use Rattle.terms.specs.Terms.Value.{loc, var};
ghost use Rattle.terms.specs.Clock.{ticks_of};
ghost use Rattle.table.specs.Words.{name_at, chan_name, names_at, arg_at, field, row_size, name_field, value_field};
ghost use Rattle.table.specs.Valid.{ref_ok};
ghost use Rattle.text_process.specs.Values.{Places, value_seen, part_seen, process_seen};
ghost use Rattle.calls_alike.specs.Decides.{Decides};
ghost use Rattle.calls_alike.specs.Pieces.{opening, kind_at, resolved, named, ValueOk, ArgsOk, args_seen, call_seen, go_seen, inner_seen};

use table::words::{arg_at, field, is_named, key_at, next_at, wide, word};
use table::{
    CHANNELS, FIRST_FIELD, IDENTIFIERS, KIND_FIELD, LOCATIONS, NAME_FIELD, NAME_SIZE, OWNS, PARTS,
    ROW_SIZE, SECOND_FIELD, SLOT_FIELD, Script, TIMER_FIELD, VALUE_FIELD,
};

// A table under the values of eight slots: below 64 the location that a slot holds, else the slot stands for its own name.
#[derive(Clone, Copy)]
pub struct View<'a> {
    pub table: &'a Script,
    pub vals: [u32; 8],
}

// ── names, timers, values ──
// Are the name at o in w and the name at p in v one?
pub fn same_name(w: &Script, o: usize, v: &Script, p: usize) -> bool
    ensures { Decides result (name_at w.now o) (name_at v.now p) }
{
    is_named(v, p, key_at(w, o))
}

// Every number above 1,000,000 is inf.
fn same_timer(t: u32, u: u32) -> bool
    ensures { Decides result (ticks_of t) (ticks_of u) }
{
    t == u || 1000000 < t.min(u)
}

// The location that a value's slot holds, or the value's own word where it holds none.
fn resolve(vals: &[u32; 8], a: u32) -> u32
    requires { length vals.now ≡ 8 }
    ensures { result ≡ resolved vals.now a }
{
    if a < 64 {
        return a;
    }
    match vals.get(wide(a - 64)) {
        Some(&x) if x < 64 => x,
        _ => a,
    }
}

// Where the name of a resolved word at the part i stands: a location's, or that of the slot's variable.
fn name_place(w: &Script, i: usize, a: u32) -> usize
    requires { i < 4096 }
    ensures { named w.now i a ≡ cond (ltb a 64) (loc (name_at w.now result)) (var (name_at w.now result)) }
{
    let m = wide(a);
    if m < 64 {
        return LOCATIONS + m * NAME_SIZE;
    }
    wide(word(w, PARTS + i * ROW_SIZE + (SLOT_FIELD + (m - 64))))
}

// Two resolved words at the parts i and j.
fn same_named(w: &Script, i: usize, a: u32, v: &Script, j: usize, b: u32) -> bool
    requires { (i < 4096) × (j < 4096) }
    ensures { Decides result (named w.now i a) (named v.now j b) }
{
    (a < 64) == (b < 64) && same_name(w, name_place(w, i, a), v, name_place(v, j, b))
}

// Two values at the parts i and j.
fn same_value(w: &View, i: usize, a: u32, v: &View, j: usize, b: u32) -> bool
    requires places { Places w.now.table.now i w.now.vals × Places v.now.table.now j v.now.vals }
    requires a_value { (ref_ok w.now.table.now (names_at w.now.table.now i) a ≡ true) × (ref_ok v.now.table.now (names_at v.now.table.now j) b ≡ true) }
    ensures { Decides result (value_seen w.now.table.now i w.now.vals a) (value_seen v.now.table.now j v.now.vals b) }
{
    let x = resolve(&w.vals, a);
    let y = resolve(&v.vals, b);
    same_named(w.table, i, x, v.table, j, y)
}

// ── parts up to their inner processes ──
// Argument k of the calls at i and j.
fn same_arg(w: &View, i: usize, v: &View, j: usize, k: usize) -> bool
    requires places { Places w.now.table.now i w.now.vals × Places v.now.table.now j v.now.vals }
    requires k_value { (k < 4) × (ref_ok w.now.table.now (names_at w.now.table.now i) (arg_at w.now.table.now i k) ≡ true) × (ref_ok v.now.table.now (names_at v.now.table.now j) (arg_at v.now.table.now j k) ≡ true) }
    ensures { Decides result (value_seen w.now.table.now i w.now.vals (arg_at w.now.table.now i k)) (value_seen v.now.table.now j v.now.vals (arg_at v.now.table.now j k)) }
{
    same_value(w, i, arg_at(w.table, i, k), v, j, arg_at(v.table, j, k))
}

// The first n arguments of the calls at i and j.
fn same_args(w: &View, i: usize, v: &View, j: usize, n: usize) -> bool
    requires places { Places w.now.table.now i w.now.vals × Places v.now.table.now j v.now.vals }
    requires n_bound { (n ≤ 4) × ArgsOk w.now.table.now i n × ArgsOk v.now.table.now j n }
    ensures { Decides result (args_seen w.now.table.now i w.now.vals n) (args_seen v.now.table.now j v.now.vals n) }
{
    (0..n).all(|k| same_arg(w, i, v, j, k))
}

// The calls at i and j.
fn same_call(w: &View, i: usize, v: &View, j: usize) -> bool
    requires places { Places w.now.table.now i w.now.vals × Places v.now.table.now j v.now.vals }
    requires i_value { (kind_at w.now.table.now i ≡ 4) × (kind_at v.now.table.now j ≡ 4) }
    ensures { Decides result (call_seen w.now.table.now i w.now.vals) (call_seen v.now.table.now j v.now.vals) }
{
    let n = field(w.table, i, VALUE_FIELD);
    let o = IDENTIFIERS + wide(field(w.table, i, NAME_FIELD)) * ROW_SIZE;
    let p = IDENTIFIERS + wide(field(v.table, j, NAME_FIELD)) * ROW_SIZE;
    n == field(v.table, j, VALUE_FIELD)
        && same_name(w.table, o, v.table, p)
        && same_args(w, i, v, j, wide(n))
}

// The channels of the parts at i and j.
fn same_channel(w: &Script, i: usize, v: &Script, j: usize) -> bool
    requires { (i < 4096) × (j < 4096) }
    ensures { Decides result (chan_name w.now (field w.now i name_field)) (chan_name v.now (field v.now j name_field)) }
{
    let o = CHANNELS + wide(field(w, i, NAME_FIELD)) * NAME_SIZE;
    let p = CHANNELS + wide(field(v, j, NAME_FIELD)) * NAME_SIZE;
    same_name(w, o, v, p)
}

// The timers t and u, and the values of the parts at i and j.
fn same_timed(w: &View, i: usize, t: u32, v: &View, j: usize, u: u32) -> bool
    requires places { Places w.now.table.now i w.now.vals × Places v.now.table.now j v.now.vals }
    requires value_ok { ValueOk w.now.table.now i × ValueOk v.now.table.now j }
    ensures { Decides result (go_seen w.now.table.now i t w.now.vals) (go_seen v.now.table.now j u v.now.vals) }
{
    let a = field(w.table, i, VALUE_FIELD);
    let b = field(v.table, j, VALUE_FIELD);
    same_timer(t, u) && same_value(w, i, a, v, j, b)
}

// The parts at i and j with the timers t and u, up to their inner processes.
fn same_open(w: &View, i: usize, t: u32, v: &View, j: usize, u: u32) -> bool
    requires { Places w.now.table.now i w.now.vals × Places v.now.table.now j v.now.vals }
    ensures { Decides result (opening (part_seen w.now.table.now i t w.now.vals)) (opening (part_seen v.now.table.now j u v.now.vals)) }
{
    let k = field(w.table, i, KIND_FIELD);
    if k != field(v.table, j, KIND_FIELD) {
        return false;
    }
    match k {
        1 => same_timed(w, i, t, v, j, u),
        2 => same_timed(w, i, t, v, j, u) && same_channel(w.table, i, v.table, j),
        3 => {
            same_timer(t, u)
                && same_channel(w.table, i, v.table, j)
                && same_name(w.table, OWNS + i * ROW_SIZE, v.table, OWNS + j * ROW_SIZE)
        }
        4 => same_call(w, i, v, j),
        _ => true,
    }
}

// ── parts and processes ──
// Field k of the part at i, as a place or a slot.
fn link(w: &Script, i: usize, k: usize) -> usize
    requires { (i < 4096) × (k < row_size) }
    ensures { result ≡ field w.now i k }
{
    wide(field(w, i, k))
}

// The values in the P of the input at i: the slot of its name holds none. (Not within the recursion below, whose levels it would make larger.)
#[inline(never)]
fn hidden<'a>(w: &View<'a>, i: usize) -> View<'a>
    requires { i < 4096 }
    ensures { (result.table.now ≡ w.now.table.now) × (result.vals ≡ set w.now.vals (field w.now.table.now i value_field) 64) }
{
    let mut x = *w;
    let k = link(w.table, i, VALUE_FIELD);
    if k < 8 {
        x.vals[k] = 64;
    }
    x
}

// The inner processes of the parts at i and j, which are of one kind.
#[cycle(part_by_part)]
fn same_inner(w: &View, i: usize, v: &View, j: usize) -> bool
    requires { Places w.now.table.now i w.now.vals × Places v.now.table.now j v.now.vals × (kind_at w.now.table.now i ≡ kind_at v.now.table.now j) }
    ensures { Decides result (inner_seen w.now.table.now i w.now.vals) (inner_seen v.now.table.now j v.now.vals) }
{
    let p = link(w.table, i, FIRST_FIELD);
    let q = link(v.table, j, FIRST_FIELD);
    let r = link(w.table, i, SECOND_FIELD);
    let s = link(v.table, j, SECOND_FIELD);
    let k = field(w.table, i, KIND_FIELD);
    match k {
        1 => same_process(w, p, v, q),
        2 => same_process(w, p, v, q) && same_process(w, r, v, s),
        3 => {
            let a = hidden(w, i);
            let b = hidden(v, j);
            same_process(&a, p, &b, q) && same_process(w, r, v, s)
        }
        _ => true,
    }
}

// The processes at i and j, part by part.
#[cycle(part_by_part)]
pub fn same_process(w: &View, i: usize, v: &View, j: usize) -> bool
    requires { Places w.now.table.now i w.now.vals × Places v.now.table.now j v.now.vals }
    ensures { Decides result (process_seen w.now.table.now i w.now.vals) (process_seen v.now.table.now j v.now.vals) }
{
    let mut a = i;
    let mut b = j;
    loop {
        let t = field(w.table, a, TIMER_FIELD);
        let u = field(v.table, b, TIMER_FIELD);
        if !same_part(w, a, t, v, b, u) {
            return false;
        }
        let m = wide(next_at(w.table, a));
        let n = wide(next_at(v.table, b));
        if m == 0 || n == 0 {
            return m == n;
        }
        a = m - 1;
        b = n - 1;
    }
}

// The parts at i and j with the timers t and u.
#[cycle(part_by_part)]
pub fn same_part(w: &View, i: usize, t: u32, v: &View, j: usize, u: u32) -> bool
    requires { Places w.now.table.now i w.now.vals × Places v.now.table.now j v.now.vals }
    ensures { Decides result (part_seen w.now.table.now i t w.now.vals) (part_seen v.now.table.now j u v.now.vals) }
{
    same_open(w, i, t, v, j, u) && same_inner(w, i, v, j)
}
