// Layer 3, calls: the single-outcome profile (document 02, R-13): whether a location conforms, and the step at one that does.
//
//   specs/Profiled   what the two calls answer
//   specs/Roles      the test by numbers: what each component has to have for itself
//   roles            the role of a component at a location
//   test             the test of a location, in one pass
//   outward          the calls on a valid table
//
//   proofs/Apart       no role is taken twice: one more component
//   proofs/Conforming  the test by numbers is the test of what the components stand for
//   proofs/Ready       the role of a ready component is that of its head
//   proofs/Answering   the conforming step goes by what the test answers
#![tactic(auto)]

pub mod outward;
mod roles;
pub mod test;

// The answer of the test: code 0 with yes or no, or the number of the question answered by no, and no.
#[repr(C)]
#[derive(Clone, Copy)]
pub struct Tested {
    pub code: u32,
    pub yes: bool,
}
