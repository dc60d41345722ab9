// Why a call is refused: the first of its questions that is answered by no. Its number is what a caller in another language gets.
ghost use Rattle.std.specs.Prelude.{◌≡◌};
ghost use Rattle.terms.specs.Refusals.{number_of};

#[derive(Clone, Copy, PartialEq, Eq, Debug)]
pub enum Refusal {
    // 1 to 7, of a text
    TooLong,
    NotOfForm,
    TooDeep,
    TooMany,
    DefinedTwice,
    NotDefined,
    NotBound,
    // 8 to 11, of an action; 8 of a location too
    OutOfRange,
    Marked,
    WrongForm,
    Apart,
    // 12 and 13, of a tick
    Forced,
    TableFull,
    // 14, of a network to be written; 15, of what is lent to be written into
    MarkedText,
    BufferShort,
    // 16, of an action of a proposal
    Elsewhere,
    // 17, of a network in memory
    NotValid,
    // 18 and 20, of an action
    MessagesFull,
    NoRight,
    // 21, of what is given with a text
    NoEdition,
    // 26, of a conforming step
    NotConforming,
}

impl Refusal {
    // The number of the question.
    pub fn number(self) -> u32
        ensures { result ≡ number_of self }
    {
        match self {
            Refusal::TooLong => 1,
            Refusal::NotOfForm => 2,
            Refusal::TooDeep => 3,
            Refusal::TooMany => 4,
            Refusal::DefinedTwice => 5,
            Refusal::NotDefined => 6,
            Refusal::NotBound => 7,
            Refusal::OutOfRange => 8,
            Refusal::Marked => 9,
            Refusal::WrongForm => 10,
            Refusal::Apart => 11,
            Refusal::Forced => 12,
            Refusal::TableFull => 13,
            Refusal::MarkedText => 14,
            Refusal::BufferShort => 15,
            Refusal::Elsewhere => 16,
            Refusal::NotValid => 17,
            Refusal::MessagesFull => 18,
            Refusal::NoRight => 20,
            Refusal::NoEdition => 21,
            Refusal::NotConforming => 26,
        }
    }
}
