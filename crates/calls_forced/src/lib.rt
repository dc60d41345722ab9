// Layer 3, calls: the report of the locations where the tick is not allowed.
//
//   specs/Marked    channels heard and locations pressed, component by component
//   specs/Report    what the report says
//   marks           places marked in one pass over the components
//   ears            the channels that are heard, at all locations
//   press           the locations where a component presses
//   forced          the report of a valid table
//
//   proofs/Places   who has no place, and what is heard of whom
//   proofs/Marking  places noted component by component are those of all components
//   proofs/Forcing  they name exactly the locations where the rules do not allow the tick
//   proofs/Bits     the laws of a set of bits
#![tactic(auto)]

mod ears;
pub mod forced;
mod marks;
mod press;

// The answer: code 0, with bit l of the set for location l, how many there are and the lowest, 64 for none.
#[repr(C)]
#[derive(Clone, Copy)]
pub struct Report {
    pub code: u32,
    pub set: u64,
    pub count: u32,
    pub lowest: u32,
}
