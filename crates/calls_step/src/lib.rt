// Layer 3, calls: the step at a location.
//
//   specs/Stepped what the answer of a step stands for
//   step          the step at a location of a valid table
//
//   proofs/Stepping  the step stands for the step of the rules, with questions 15, 18 and 13
#![tactic(auto)]

pub mod step;

// The answer of a step: code 0 with the number of actions and the number of components after it, or the number of the question answered by no, 0 and the
// number of components as it was.
#[repr(C)]
#[derive(Clone, Copy)]
pub struct Stepped {
    pub code: u32,
    pub count: usize,
    pub n: usize,
}

// What an accepted step gives: how many actions, and how many components there are after it.
#[derive(Clone, Copy)]
pub struct Done {
    pub count: usize,
    pub n: usize,
}
