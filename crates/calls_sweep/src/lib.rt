// Layer 3, calls: the actions of a step.
//
//   specs/Sweep   the actions of a step on the table
//   specs/Visit   one position of the sweep
//   sweep         the loop over the positions
//
//   proofs/Sweeps    the sweep on the table stands for the sweep of the rules
//   proofs/Queues    the channel that a component sends on is one of 64, or 64
//   proofs/Sweeping  one position of the sweep in code
//   proofs/Going     the loop over the positions
//   proofs/Tallying  waits, total and count after the sweep are those of its actions one by one
#![tactic(auto)]

pub mod sweep;

use table::Comp;

// What the component at a position does: it calls a definition, moves, or sends to another, which receives.
#[derive(Clone, Copy)]
pub enum Act {
    Calls,
    Moves,
    Sends,
}

// What becomes of the component at a position, and of its partner.
#[derive(Clone, Copy)]
pub struct Visit {
    pub x: Comp,
    pub y: Comp,
}

// What the actions of a step were: how many, how many of them sent a message, and how long the senders had waited together.
#[derive(Clone, Copy)]
pub struct Swept {
    pub count: usize,
    pub sent: u32,
    pub sum: usize,
}
