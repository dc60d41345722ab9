// Layer 3, calls: the tick.
//
//   specs/Ticked  what the answer of a tick stands for
//   tick          the tick at a location of a valid table
//
//   proofs/Ticking  the tick stands for the tick of the rules, with question 13 after it
#![tactic(auto)]

pub mod tick;

// The answer of a tick: code 0 with the number of components after it, or the number of the question answered by no and the number of components as it was.
#[repr(C)]
#[derive(Clone, Copy)]
pub struct Ticked {
    pub code: u32,
    pub n: usize,
}
