// Components of two tables.
ghost use Rattle.std.specs.Prelude.{◌≡◌, ◌+◌, ◌*◌, ◌<◌, true};
ghost use Rattle.terms.specs.Same.{equal, reordered};
ghost use Rattle.table.specs.Words.{locs_at, name_at, name_size};
ghost use Rattle.table.specs.Meaning.{comp_in, means, net_of};
ghost use Rattle.table.specs.Valid.{script_ok, comp_ok, valid};
ghost use Rattle.calls_alike.specs.Decides.{Decides};
ghost use Rattle.calls_same.specs.Pieces.{parted};
ghost use Rattle.calls_same.specs.Unused.{is_match, raised_to};

use calls_alike::parts::{View, same_name, same_part, same_process};
use table::comps::comp_at;
use table::words::wide;
use table::{Comp, LOCATIONS, NAME_SIZE, Script, Words};

// Are the locations numbered c and d one by their names?
fn same_location(w: &Script, c: u32, v: &Script, d: u32) -> bool
    ensures { Decides result (name_at w.now (locs_at + c * name_size)) (name_at v.now (locs_at + d * name_size)) }
{
    let o = LOCATIONS + wide(c) * NAME_SIZE;
    let p = LOCATIONS + wide(d) * NAME_SIZE;
    same_name(w, o, v, p)
}

// The owners or their absence, and the processes.
fn same_held(w: &Script, c: Comp, v: &Script, d: Comp) -> bool
    requires { (script_ok w.now ≡ true) × (comp_ok w.now c ≡ true) × (script_ok v.now ≡ true) × (comp_ok v.now d ≡ true) }
    ensures { Decides result (parted w.now c) (parted v.now d) }
{
    let vals = c.vals;
    let x = View { table: w, vals };
    let vals = d.vals;
    let y = View { table: v, vals };
    if c.mark < 64 {
        d.mark < 64
            && same_location(w, c.mark, v, d.mark)
            && same_process(&x, wide(c.place), &y, wide(d.place))
    } else {
        64 <= d.mark && same_part(&x, wide(c.place), c.timer, &y, wide(d.place), d.timer)
    }
}

// The components c and d: location, owner, parts.
fn same_comp(w: &Script, c: Comp, v: &Script, d: Comp) -> bool
    requires { (script_ok w.now ≡ true) × (comp_ok w.now c ≡ true) × (script_ok v.now ≡ true) × (comp_ok v.now d ≡ true) }
    ensures { result ≡ equal (means w.now c) (means v.now d) }
{
    same_location(w, c.loc, v, d.loc) && same_held(w, c, v, d)
}

// Is the component at position p unused, and is it c?
fn unused_same(w: &Script, c: Comp, v: &Script, b: &Words, used: &[bool; 256], p: usize) -> bool
    requires { (script_ok w.now ≡ true) × (comp_ok w.now c ≡ true) × (script_ok v.now ≡ true) × (comp_ok v.now (comp_in b.now p) ≡ true) × (p < 256) }
    ensures { result ≡ is_match w.now c v.now b.now used.now p }
{
    !used[p] && same_comp(w, c, v, comp_at(b, p))
}

// All positions below low are used up; is it so below one more, after p was used up too?
fn raised(low: usize, p: usize) -> usize
    requires { p < 256 }
    ensures { result ≡ raised_to low p }
{
    if p == low { p + 1 } else { low }
}

// The same components in any order, each as often: each of the first n in order uses up the first equal one of the second m.
pub(crate) fn same_comps(w: &Script, a: &Words, n: usize, v: &Script, b: &Words, m: usize) -> bool
    requires { (valid w.now (record { c = a.now; n = n }) ≡ true) × (valid v.now (record { c = b.now; n = m }) ≡ true) }
    ensures { result ≡ reordered (net_of w.now (record { c = a.now; n = n })) (net_of v.now (record { c = b.now; n = m })) }
{
    if n != m {
        return false;
    }
    let mut used = [false; 256];
    let mut low = 0;
    for k in 0..n {
        let c = comp_at(a, k);
        let Some(p) = (low..n).find(|&p| unused_same(w, c, v, b, &used, p)) else {
            return false;
        };
        used[p] = true;
        low = raised(low, p);
    }
    true
}
