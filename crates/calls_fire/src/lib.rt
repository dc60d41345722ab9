// Layer 3, calls: what an action makes of its components.
//
//   specs/Fired   what the answers of one and of two components stand for
//   fire          one component, two components
//   rights        the right that an action needs
//
//   proofs/Heads  what question 17 gives the functions of `fire`, and what an action makes of its components by its questions in turn
#![tactic(auto)]

pub mod fire;
pub mod rights;

use table::Comp;

// A label in numbers. Kind 1: the definition a is called. Kind 2: the location a is moved to. Kind 3: the value b is sent on the channel a.
// It fires at the location at.
#[repr(C)]
#[derive(Clone, Copy)]
pub struct Label {
    pub kind: u32,
    pub a: u32,
    pub b: u32,
    pub at: u32,
}

// What an action makes of one component.
#[derive(Clone, Copy)]
pub struct Fired {
    pub label: Label,
    pub comp: Comp,
}

// What a communication makes of an output and an input.
#[derive(Clone, Copy)]
pub struct Met {
    pub label: Label,
    pub sender: Comp,
    pub receiver: Comp,
}
