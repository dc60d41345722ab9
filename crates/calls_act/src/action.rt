// An action at positions, out of the numbers that a caller gives.
ghost use Rattle.std.specs.Prelude.{◌≡◌};
ghost use Rattle.terms.specs.Refusals.{answer_of};
ghost use Rattle.calls_act.specs.Acted.{action_is, action_of};

use terms::refusal::Refusal;

// Of one component.
#[derive(Clone, Copy, PartialEq, Eq, Debug)]
pub enum Kind {
    Call,
    Move,
}

// With the positions of the components that it takes: of an output and an input where it is a communication.
#[derive(Clone, Copy, PartialEq, Eq, Debug)]
pub enum Action {
    Single(Kind, usize),
    Pair(usize, usize),
}

impl Action {
    // By the number of its kind; another number is refused by question 8.
    pub fn numbered(kind: u32, p: usize, q: usize) -> Result<Action, Refusal>
        ensures { answer_of action_is result ≡ action_of kind p q }
    {
        match kind {
            1 => Ok(Action::Single(Kind::Call, p)),
            2 => Ok(Action::Single(Kind::Move, p)),
            3 => Ok(Action::Pair(p, q)),
            _ => Err(Refusal::OutOfRange),
        }
    }
}
