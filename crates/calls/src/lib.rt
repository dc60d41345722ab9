// Layer 3, calls: the outward calls on a network, each with question 17 first and with no `requires`.
//
//   specs/Run       a list of calls of any content, what the grouped run is fed of it, and the claim of demand 3
//   specs/Demand3   that claim from the text on
//   specs/Leaving   where leave rights let components stand, from the text on
//   specs/Embargo   an example of it for a publisher
//   specs/Outcome   where a location conforms, all that is accepted there comes to the same
//   specs/Examples  the twelve examples of document 01, by computation
//   proofs/Straight the accepted calls of a list are a straight run of the rules
//   proofs/Demand3  the equality with the grouped run
//   proofs/Leaving  the chain of leave rights, and what it gives a publisher
//   proofs/Embargo  the publisher's example
//   proofs/Outcome  one outcome, of proposals and of the step
//   proofs/Calls    one call of a list, and one more call at the end of a run
//   run             a list of calls one after another, from a state and from a text
#![tactic(auto)]

pub mod run;

ghost use Rattle.std.specs.Prelude.{◌≡◌, length};
ghost use Rattle.calls_act.specs.Acted.{action_answer, ActsAs};
ghost use Rattle.calls_tick.specs.Ticked.{tick_answer, TicksAs};
ghost use Rattle.calls_step.specs.Stepped.{step_answer, StepsAs};
ghost use Rattle.calls_forced.specs.Report.{forced_report};
ghost use Rattle.calls_profile.specs.Profiled.{test_answer, tested, conforming_answer};

use calls_act::{Acted, act};
use calls_forced::{Report, forced};
use calls_profile::{Tested, outward};
use calls_step::{Stepped, step};
use calls_tick::{Ticked, tick};
use table::{Script, Words};
use table_valid::{is_valid, network};
use terms::refusal::Refusal;

// How many calls of a list were made, and the number of components after them.
#[derive(Clone, Copy)]
pub struct Ran {
    pub done: usize,
    pub n: usize,
}

// After a text and a list of calls: the code of the reading, how many calls were made, and the number of components after them. The code is the number that
// the C interface's `Reading` has: a refusal is had back from it by a look-up alone, so that it stays a number beside the others.
#[derive(Clone, Copy)]
pub struct RanText {
    pub code: u32,
    pub done: usize,
    pub n: usize,
}

// An action of the given kind at p, and q for kind 3: questions 17, 8, 9, 10, 11, 20, 18. The components are lent, n of them in use, as in every call below; a refusal
// leaves them as they were.
pub fn action(w: &Script, c: &mut Words, n: usize, kind: u32, p: usize, q: usize) -> Acted
    ensures { ActsAs w.now (record { c = c.entry.now; n = n }) (action_answer w.now (record { c = c.entry.now; n = n }) kind p q) result c.exit.now }
{
    if is_valid(w, c, n) {
        return act::act_valid(w, c, n, kind, p, q);
    }
    act::refuse(Refusal::NotValid.number())
}

// The tick at the location numbered l: questions 17, 8, 12, 13.
pub fn tick_at(w: &Script, c: &mut Words, n: usize, l: u32) -> Ticked
    ensures { TicksAs w.now (record { c = c.entry.now; n = n }) (tick_answer w.now (record { c = c.entry.now; n = n }) l) result c.exit.now }
{
    if is_valid(w, c, n) {
        return tick::tick_valid(w, c, n, l);
    }
    tick::refuse(Refusal::NotValid.number(), n)
}

// The step at the location numbered l: questions 17, 8, 15, 18, 13. The records of its actions stand in front of what was in the buffer.
pub fn step_at(w: &Script, c: &mut Words, n: usize, l: u32, records: &mut [[u32; 3]]) -> Stepped
    ensures { StepsAs w.now (record { c = c.entry.now; n = n }) (step_answer w.now (record { c = c.entry.now; n = n }) l (length records.old)) result c.exit.now records.old records.new }
{
    if is_valid(w, c, n) {
        return step::step_valid(w, c, n, l, records);
    }
    step::refuse(Refusal::NotValid.number(), n)
}

// Does the location numbered l conform to the single-outcome profile? Questions 17 and 8; a no is no refusal.
pub fn conforms(w: &Script, c: &Words, n: usize, l: u32) -> Tested
    ensures { result ≡ tested (test_answer w.now (record { c = c.entry.now; n = n }) l) }
{
    match network(w, c, n) {
        Some(net) => outward::test_valid(net, l),
        None => outward::refuse(Refusal::NotValid.number()),
    }
}

// The step at the location numbered l, where it conforms: questions 17, 8, 26, and then as the step's, 15, 18, 13.
pub fn step_conforming(
    w: &Script,
    c: &mut Words,
    n: usize,
    l: u32,
    records: &mut [[u32; 3]],
) -> Stepped
    ensures { StepsAs w.now (record { c = c.entry.now; n = n }) (conforming_answer w.now (record { c = c.entry.now; n = n }) l (length records.old)) result c.exit.now records.old records.new }
{
    if is_valid(w, c, n) {
        return outward::step_conforming_valid(w, c, n, l, records);
    }
    step::refuse(Refusal::NotValid.number(), n)
}

// The locations where the tick is not allowed: question 17 first.
pub fn forced_report(w: &Script, c: &Words, n: usize) -> Report
    ensures { result ≡ forced_report w.now (record { c = c.entry.now; n = n }) }
{
    match network(w, c, n) {
        Some(net) => forced::forced_valid(net),
        None => Report {
            code: Refusal::NotValid.number(),
            set: 0,
            count: 0,
            lowest: 0,
        },
    }
}
