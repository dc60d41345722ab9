// The two calls on a table that passes question 17.
ghost use Rattle.std.specs.Prelude.{length, ◌≡◌, true, false};
ghost use Rattle.terms.specs.Refusals.{answer_of};
ghost use Rattle.table.specs.Valid.{valid};
ghost use Rattle.calls_step.specs.Stepped.{StepsAs};
ghost use Rattle.calls_profile.specs.Profiled.{test_rule, tested, conforming_rule};

use super::{Tested, test};
use calls_step::{Stepped, step};
use table::network::Network;
use table::{Script, Words, words};
use terms::refusal::Refusal;

pub fn refuse(code: u32) -> Tested
    ensures { result ≡ record { code = code; yes = false } }
{
    Tested { code, yes: false }
}

// Does the location numbered l conform? Question 8.
fn conforms_valid(net: Network, l: u32) -> Result<bool, Refusal>
    ensures { answer_of (λ y. y) result ≡ test_rule net.entry.script.now (record { c = net.entry.words.now; n = net.entry.n }) l }
{
    if words::word(net.script, 1) <= l {
        return Err(Refusal::OutOfRange);
    }
    Ok(test::conforms_at(net, l))
}

// The same in the call's form.
pub fn test_valid(net: Network, l: u32) -> Tested
    ensures { result ≡ tested (test_rule net.entry.script.now (record { c = net.entry.words.now; n = net.entry.n }) l) }
{
    match conforms_valid(net, l) {
        Ok(yes) => Tested { code: 0, yes },
        Err(e) => refuse(e.number()),
    }
}

// The step at a location that conforms: questions 8 and 26, and then those of the step.
pub fn step_conforming_valid(
    w: &Script,
    c: &mut Words,
    n: usize,
    l: u32,
    records: &mut [[u32; 3]],
) -> Stepped
    requires { valid w.now (record { c = c.now; n = n }) ≡ true }
    ensures { StepsAs w.now (record { c = c.entry.now; n = n }) (conforming_rule w.now (record { c = c.entry.now; n = n }) l (length records.old)) result c.exit.now records.old records.new }
{
    let net = Network {
        script: w,
        words: &*c,
        n,
    };
    match conforms_valid(net, l) {
        Err(e) => step::refuse(e.number(), n),
        Ok(false) => step::refuse(Refusal::NotConforming.number(), n),
        Ok(true) => step::step_valid(w, c, n, l, records),
    }
}
