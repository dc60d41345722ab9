// Layer 2, reading and writing: what the call `read` answers and leaves: a refusal, or the components of the network; the lent script, which is set to zero
// or put back as it was; and its edition and its rights, which are given with a text.
//
// specs/Answer  what the call answers
//
// state  the components of the network
// front  a script set to zero; its edition
// given  what is given put into a script
//
// proofs/States  components made from their places
// proofs/Kept    a script set to zero, and one put back
// proofs/Under   a script with what was given: rights as words, and read from them; and put back
// proofs/Named   rights by name from rights by number
// proofs/All     all rights, by number and by name
#![tactic(auto)]

ghost use Rattle.std.specs.Prelude.{◌≡◌};
ghost use Rattle.text_answer.specs.Answer.{refusal};

use state::no_state;

pub mod front;
pub mod given;
pub mod state;

// The rights of one location: to send and to receive on each channel, to leave for each target, by number.
#[repr(C)]
#[derive(Clone, Copy)]
pub struct Row {
    pub send: [bool; 64],
    pub receive: [bool; 64],
    pub leave: [bool; 64],
}

// What is given with a text and then stays with its network: the edition, 1 or 2, and a row of rights for each location.
#[repr(C)]
#[derive(Drop)]
pub struct Settings {
    pub edition: u32,
    pub rights: [Row; 64],
}

// The answer: 0 and the components, or the number of the question answered by no and no components. (The C interface has a number and a state by value.)
#[repr(C)]
#[derive(Drop)]
pub struct Reading {
    pub code: u32,
    pub state: table::State,
}

// A refusal, by its number.
pub fn refuse(n: u32) -> Reading
    ensures { result ≡ refusal n }
{
    Reading {
        code: n,
        state: no_state(),
    }
}
