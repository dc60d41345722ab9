// Layer 1, the table: what a network is in memory, what it stands for, and what question 17 asks. Its code is in table_names, table_scopes, table_parts and table_valid.
//
//   specs/Words     the words of a script
//   specs/Meaning   the network that a script and a state stand for
//   specs/Size      how many rows a process takes
//   specs/Valid     question 17
//   specs/Tests     what the contracts of internal functions cite
//   specs/Split     what a tick makes of a component
//   specs/Fire      what an action makes of its components, and when a tick is allowed
//   specs/Examples  small tables, computed
//   comps           reading and writing a component
//   words           reading a script's words, names, heads
//   network         a network that passes question 17, as it is lent
//
//   proofs/Tests        what the tests of question 17 give
//   proofs/Places       the process at a place is its part and the process at its next
//   proofs/Scopes       setting a slot is substitution, shadowing included
//   proofs/Fires        what fits on the table fits by the rules
//   proofs/Granted      with rights: an action on the table is the rules' action on what it stands for
//   proofs/Splits       what a tick makes of a component, likewise
//   proofs/Ticks        when a tick is allowed, and what it leaves, likewise
//   proofs/Kept         actions and ticks keep what question 17 asks
//   proofs/Tags         the label of an action in numbers: in range, and those of its names
//   proofs/Size         no term is larger than its table
//   proofs/InUse        the components in use, by position
//   proofs/Stores       words after a run of stores
//   proofs/Names        a name's letters determine its words
//   proofs/WordsHead    the head of a part by its kind
//   proofs/ValidBool    tests and conjunctions
//   proofs/ValidLists   what a loop over a list has shown
//   proofs/Rows         names and scopes as the words of rows have them
//   proofs/ValidDefs    the parameters of a definition
//   proofs/Ranges       the library's words for tests over a range of numbers
#![tactic(auto)]

pub mod comps;
pub mod network;
pub mod words;

// How many words a script and a state have, and where in a script the names of locations and channels, the parts, and the name that the input at place 0
// binds begin (specs/Words).
pub const SCRIPT_WORDS: usize = 111888;

pub const STATE_WORDS: usize = 4112;

pub const LOCATIONS: usize = 776;

pub const CHANNELS: usize = 1032;

pub const PARTS: usize = 1288;

// Where the rows of parts end.
pub const PARTS_END: usize = 99592;

// The edition stands directly behind them.
pub const EDITION: usize = PARTS_END;

// Where the rights begin, how many words the row of a location has, and where in it those to send, to receive and to leave begin.
pub const RIGHTS: usize = 99600;

pub const RIGHTS_SIZE: usize = 192;

pub const SEND_FIELD: usize = 0;

pub const RECEIVE_FIELD: usize = 64;

pub const LEAVE_FIELD: usize = 128;

pub const OWNS: usize = 1305;

// Where in the row of definition 0 its number of parameters, the place of its body, its identifier and its four parameters stand.
pub const DEFINITIONS: usize = 8;

pub const BODIES: usize = 9;

pub const IDENTIFIERS: usize = 10;

pub const FIRST_PARAM: usize = 14;

pub const SECOND_PARAM: usize = 18;

pub const THIRD_PARAM: usize = 22;

pub const FOURTH_PARAM: usize = 26;

// How many words a name has.
pub const NAME_SIZE: usize = 4;

// A name stands before this word.
pub const LAST_NAME: u32 = 99589;

// The words of a part's row (specs/Words).
pub const KIND_FIELD: usize = 0;

pub const NAME_FIELD: usize = 1;

pub const TIMER_FIELD: usize = 2;

pub const VALUE_FIELD: usize = 3;

pub const FIRST_FIELD: usize = 4;

pub const SECOND_FIELD: usize = 5;

pub const NEXT_FIELD: usize = 6;

pub const LOW_FIELD: usize = 7;

pub const COUNT_FIELD: usize = 8;

pub const SLOT_FIELD: usize = 9;

pub const ARG_FIELD: usize = 17;

// How many words the row of a part or of a definition has, and a component.
pub const ROW_SIZE: usize = 24;

pub const COMP_SIZE: usize = 16;

// Where in a state the low word of the total, its high word and the count of messages stand.
pub const TOTAL_LOW: usize = 4096;

pub const TOTAL_HIGH: usize = 4097;

pub const COUNT: usize = 4098;

// The words of a script, written by reading and then only lent.
pub type Script = [u32; SCRIPT_WORDS];

// The words of a state: its components, then the total, the count and what is spare.
pub type Words = [u32; STATE_WORDS];

// A part without its inner processes, which are places, and without a call's arguments, which are read from its row.
#[derive(Clone, Copy)]
pub enum Head {
    Stop,
    // timer, value, P
    Go(u32, u32, u32),
    // channel, timer, value, P, Q
    Out(u32, u32, u32, u32, u32),
    // channel, timer, slot, P, Q
    In(u32, u32, u32, u32, u32),
    // definition, number of arguments
    Call(u32, u32),
}

// A component: location, mark (64 for none), place, timer, a location for each slot, and how many ticks it has waited.
#[derive(Clone, Copy)]
pub struct Comp {
    pub loc: u32,
    pub mark: u32,
    pub place: u32,
    pub timer: u32,
    pub vals: [u32; 8],
    pub wait: u32,
}

// The components, sixteen words for each: thirteen in the order of its fields, then three spare ones; the first n of 256 are in use. Behind them the total of
// all senders' waits in two words, the low one first, the count of messages, and thirteen spare words.
#[repr(C)]
#[derive(Drop)]
pub struct State {
    pub c: Words,
    pub n: usize,
}

// A name: four words of four bytes, the first letter lowest, zeros after the last.
#[derive(Clone, Copy, PartialEq, Eq)]
pub struct Key {
    pub a: u32,
    pub b: u32,
    pub c: u32,
    pub d: u32,
}
