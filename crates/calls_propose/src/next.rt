// The parts of a proposal before its tick, each in the lent components. After a no these are of no use.
ghost use Rattle.std.specs.Prelude.{◌≡◌, true, ◌<◌};
ghost use Rattle.terms.specs.Refusals.{code_of};
ghost use Rattle.table.specs.Words.{locs_in};
ghost use Rattle.table.specs.Valid.{valid};
ghost use Rattle.calls_propose.specs.Proposed.{so_far, Next, begun, fired_next, fired_all};

use super::Record;
use calls_act::act;
use table::{Script, Words, words};
use table_valid::is_valid;
use terms::refusal::Refusal;

// Question 17, then 8 of the location.
fn opening(w: &Script, c: &Words, n: usize, l: u32) -> Result<(), Refusal>
    ensures { Next w.now l (record { c = c.entry.now; n = n }) (begun w.now (record { c = c.entry.now; n = n }) l) (code_of result) c.entry.now }
{
    if !is_valid(w, c, n) {
        return Err(Refusal::NotValid);
    }
    if words::word(w, 1) <= l {
        return Err(Refusal::OutOfRange);
    }
    Ok(())
}

// One action: questions 8 to 11, 20 and 18, then 16, does it fire at this location?
fn act_next(w: &Script, c: &mut Words, n: usize, l: u32, r: Record) -> Result<(), Refusal>
    requires { (valid w.now (record { c = c.now; n = n }) ≡ true) × (l < locs_in w.now) }
    ensures { Next w.now l (record { c = c.entry.now; n = n }) (fired_next w.now l r (so_far w.now 0 (record { c = c.entry.now; n = n }))) (code_of result) c.exit.now }
{
    let label = act::act_by(w, c, n, r.kind, words::wide(r.p), words::wide(r.q))?;
    if label.at != l {
        return Err(Refusal::Elsewhere);
    }
    Ok(())
}

// The first questions, and then the records in order, up to the first no.
pub(crate) fn all_fired(
    w: &Script,
    c: &mut Words,
    n: usize,
    l: u32,
    records: &[Record],
) -> Result<(), Refusal>
    ensures { Next w.now l (record { c = c.entry.now; n = n }) (fired_all w.now l records.now (begun w.now (record { c = c.entry.now; n = n }) l)) (code_of result) c.exit.now }
{
    opening(w, c, n, l)?;
    for &r in records {
        act_next(w, c, n, l, r)?;
    }
    Ok(())
}
