// The outward call. A refusal puts the components back as they were.
ghost use Rattle.calls_tick.specs.Ticked.{TicksAs};
ghost use Rattle.calls_propose.specs.Proposed.{propose_answer};

use super::{Record, next};
use calls_tick::{Ticked, tick};
use table::{Script, Words};

// A proposal: question 17, then 8 for the location; each record in list order, up to the first no; then the tick; all or none.
pub fn propose(w: &Script, c: &mut Words, n: usize, l: u32, records: &[Record]) -> Ticked
    ensures { TicksAs w.now (record { c = c.entry.now; n = n }) (propose_answer w.now (record { c = c.entry.now; n = n }) l records.now) result c.exit.now }
{
    let held = *c;
    if let Err(e) = next::all_fired(w, c, n, l, records) {
        return tick::put_back(e.number(), n, &held, c);
    }
    match tick::tick_by(w, c, n, l) {
        Ok(m) => Ticked { code: 0, n: m },
        Err(e) => tick::put_back(e.number(), n, &held, c),
    }
}
