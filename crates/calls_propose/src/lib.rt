// Layer 3, calls: the proposal, a list of actions and then the tick, all or none.
//
//   specs/Proposed   what the answer of a proposal stands for
//   next             questions 17 and 8 of the location, and the actions of the list in order
//   outward          the call: the actions, and then the tick
//
//   proofs/Proposing  the parts of a proposal stand for what the rules make of it so far
//   proofs/Whole      a proposal is a whole step of the rules, with question 13 after it
#![tactic(auto)]

mod next;
pub mod outward;

// An action: its kind, and the positions of its components. Kinds 1 and 2 have one component, and q is not looked at.
#[repr(C)]
#[derive(Clone, Copy)]
pub struct Record {
    pub kind: u32,
    pub p: u32,
    pub q: u32,
}
