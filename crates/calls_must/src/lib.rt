// Layer 3, calls: when a tick is allowed.
//
//   specs/Heard   channels heard at a location, and what presses there
//   forced        is the tick at a location not allowed?
//
//   proofs/Hearing  the channels heard decide what presses
#![tactic(auto)]

pub mod forced;
