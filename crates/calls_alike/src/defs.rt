// Definitions of two tables.
ghost use Rattle.std.specs.Prelude.{◌≡◌, true, ◌+◌, ◌*◌, ◌<◌};
ghost use Rattle.terms.specs.Rules.{some};
ghost use Rattle.terms.specs.Same.{same_def, within};
ghost use Rattle.table.specs.Words.{row_size, name_at, defs_in, params_of, first_param, name_size};
ghost use Rattle.table.specs.Meaning.{def_of, defs_of};
ghost use Rattle.table.specs.Valid.{script_ok};
ghost use Rattle.calls_alike.specs.Decides.{Decides};

use super::parts::{View, same_name, same_process};
use table::words::{arity_of, body_of, wide, word};
use table::{FIRST_PARAM, IDENTIFIERS, NAME_SIZE, ROW_SIZE, Script};

// Parameter k of the definitions d and e.
fn same_param(w: &Script, d: usize, v: &Script, e: usize, k: usize) -> bool
    requires { (d < 32) × (e < 32) × (k < 4) }
    ensures { Decides result (name_at w.now (first_param + d * row_size + k * name_size)) (name_at v.now (first_param + e * row_size + k * name_size)) }
{
    let o = k * NAME_SIZE;
    same_name(
        w,
        FIRST_PARAM + d * ROW_SIZE + o,
        v,
        FIRST_PARAM + e * ROW_SIZE + o,
    )
}

// The parameters of the definitions d and e.
fn same_params(w: &Script, d: usize, v: &Script, e: usize) -> bool
    requires { (script_ok w.now ≡ true) × (d < defs_in w.now) × (script_ok v.now ≡ true) × (e < defs_in v.now) }
    ensures { Decides result (params_of w.now d) (params_of v.now e) }
{
    let n = arity_of(w, d);
    n == arity_of(v, e) && (0..wide(n)).all(|k| same_param(w, d, v, e, k))
}

// The definitions d and e: identifier, parameters, body.
fn same_def(w: &Script, d: usize, v: &Script, e: usize) -> bool
    requires { (script_ok w.now ≡ true) × (d < defs_in w.now) × (script_ok v.now ≡ true) × (e < defs_in v.now) }
    ensures { result ≡ same_def (def_of w.now d) (def_of v.now e) }
{
    let vals = [64u32; 8];
    let x = View { table: w, vals };
    let y = View { table: v, vals };
    same_name(w, IDENTIFIERS + d * ROW_SIZE, v, IDENTIFIERS + e * ROW_SIZE)
        && same_params(w, d, v, e)
        && same_process(&x, wide(body_of(w, d)), &y, wide(body_of(v, e)))
}

// Is the definition d of w among those of v?
fn def_among(w: &Script, d: usize, v: &Script) -> bool
    requires { (script_ok w.now ≡ true) × (d < defs_in w.now) × (script_ok v.now ≡ true) }
    ensures { result ≡ some (same_def (def_of w.now d)) (defs_of v.now) }
{
    (0..wide(word(v, 3))).any(|e| same_def(w, d, v, e))
}

// Is each definition of w among those of v?
pub fn defs_within(w: &Script, v: &Script) -> bool
    requires { (script_ok w.now ≡ true) × (script_ok v.now ≡ true) }
    ensures { result ≡ within (defs_of w.now) (defs_of v.now) }
{
    (0..wide(word(w, 3))).all(|d| def_among(w, d, v))
}
