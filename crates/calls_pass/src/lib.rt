// Layer 3, calls: every component in a tick.
//
//   specs/Turn    the tick, one component written at a time
//   specs/Passed  what the pass over the components gives
//   pass          every component in the tick at a location
//
//   proofs/Turns    the tick, one component written at a time, is the tick
//   proofs/Passing  the loops over the components
#![tactic(auto)]

pub mod pass;

use table::Comp;

// One turn of a component in a tick: the component written, and the place of the part that comes next; none once it is done with.
#[derive(Clone, Copy)]
pub struct Turn {
    pub comp: Comp,
    pub next: Option<u32>,
}
