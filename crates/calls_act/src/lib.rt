// Layer 3, calls: the action at positions.
//
//   specs/Acted    what the answer of an action stands for
//   specs/Labelled of that answer, the label
//   action         an action by its numbers
//   act            an action at positions of a valid table
//   naming         the label of such an action, from its components alone
//
//   proofs/Positions  an action at positions leaves what the rules leave
//   proofs/Labelling  the label from the components alone is that of the action
#![tactic(auto)]

ghost use Rattle.std.specs.Prelude.{◌≡◌};
ghost use Rattle.calls_act.specs.Acted.{acted_of};

pub mod act;
pub mod action;
pub mod naming;

use calls_fire::Label;
use terms::refusal::Refusal;

// The answer of an action: code 0 with the label, or the number of the question answered by no. There are as many components as before.
#[repr(C)]
#[derive(Clone, Copy)]
pub struct Acted {
    pub code: u32,
    pub label: Label,
}

// As a caller in another language gets it.
impl From<Result<Label, Refusal>> for Acted {
    ghost from_gives = { λ r a. a ≡ acted_of r };

    fn from(r: Result<Label, Refusal>) -> Acted {
        match r {
            Ok(label) => Acted { code: 0, label },
            Err(e) => act::refuse(e.number()),
        }
    }
}
