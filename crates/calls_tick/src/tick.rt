// The tick at a location of a table that passes question 17, in the lent components: questions 8, 12 and 13. A refusal leaves them as they were.
ghost use Rattle.std.specs.Prelude.{◌≡◌, true, false, ◌<◌, Ok};
ghost use Rattle.terms.specs.Same.{every};
ghost use Rattle.table.specs.Words.{locs_in};
ghost use Rattle.table.specs.Meaning.{comps_of};
ghost use Rattle.table.specs.Valid.{valid};
ghost use Rattle.table.specs.Fire.{forced_at};
ghost use Rattle.calls_steady.specs.Steady.{stays_one};
ghost use Rattle.calls_tick.specs.Ticked.{tick_rule, TicksAs, refusal, ticked_of};

use super::Ticked;
use calls_must::forced;
use calls_pass::pass;
use calls_steady::known_steady;
use table::comps::sized;
use table::network::Network;
use table::{Script, Words, words};
use terms::refusal::Refusal;

pub fn refuse(code: u32, n: usize) -> Ticked
    ensures { result ≡ refusal code n }
{
    Ticked { code, n }
}

// The components as they were.
fn restore(held: &Words, c: &mut Words)
    ensures { c.new ≡ held.now }
{
    *c = *held;
}

// A refusal, with the components as they were.
pub fn put_back(code: u32, n: usize, held: &Words, c: &mut Words) -> Ticked
    ensures { (result ≡ refusal code n) × (c.new ≡ held.now) }
{
    restore(held, c);
    refuse(code, n)
}

// A tick that is allowed, where every component stays one: there is room for all, and as many are left as there were.
fn tick_free(w: &Script, c: &mut Words, n: usize, l: u32)
    requires { (valid w.now (record { c = c.now; n = n }) ≡ true) × (l < locs_in w.now) × (forced_at w.now l (comps_of (record { c = c.now; n = n })) ≡ false) × (every (stays_one w.now l) (comps_of (record { c = c.now; n = n })) ≡ true) }
    ensures { TicksAs w.now (record { c = c.entry.now; n = n }) (tick_rule w.now (record { c = c.entry.now; n = n }) l) (ticked_of n (Ok n)) c.exit.now }
{
    sized(*c);
    pass::pass_all(w, c, n, l);
}

// A tick that is allowed: question 13, with a copy of the components kept until it is answered.
fn tick_kept(w: &Script, c: &mut Words, n: usize, l: u32) -> Result<usize, Refusal>
    requires { (valid w.now (record { c = c.now; n = n }) ≡ true) × (l < locs_in w.now) × (forced_at w.now l (comps_of (record { c = c.now; n = n })) ≡ false) }
    ensures { TicksAs w.now (record { c = c.entry.now; n = n }) (tick_rule w.now (record { c = c.entry.now; n = n }) l) (ticked_of n result) c.exit.now }
{
    sized(*c);
    let held = *c;
    let Some(k) = pass::pass_all(w, c, n, l) else {
        restore(&held, c);
        return Err(Refusal::TableFull);
    };
    Ok(k)
}

// How many components there are after the tick.
pub fn tick_by(w: &Script, c: &mut Words, n: usize, l: u32) -> Result<usize, Refusal>
    requires { valid w.now (record { c = c.now; n = n }) ≡ true }
    ensures { TicksAs w.now (record { c = c.entry.now; n = n }) (tick_rule w.now (record { c = c.entry.now; n = n }) l) (ticked_of n result) c.exit.now }
{
    if words::word(w, 1) <= l {
        return Err(Refusal::OutOfRange);
    }
    let net = Network {
        script: w,
        words: &*c,
        n,
    };
    if forced::forced_at(net, l) {
        return Err(Refusal::Forced);
    }
    if known_steady(net, l) {
        tick_free(w, c, n, l);
        return Ok(n);
    }
    tick_kept(w, c, n, l)
}

// The same, as a caller in another language gets it.
pub fn tick_valid(w: &Script, c: &mut Words, n: usize, l: u32) -> Ticked
    requires { valid w.now (record { c = c.now; n = n }) ≡ true }
    ensures { TicksAs w.now (record { c = c.entry.now; n = n }) (tick_rule w.now (record { c = c.entry.now; n = n }) l) result c.exit.now }
{
    match tick_by(w, c, n, l) {
        Ok(m) => Ticked { code: 0, n: m },
        Err(e) => refuse(e.number(), n),
    }
}
