// Layer 2, reading and writing: the second pass of reading over the bytes of a text that has the form: each part into its row, names into their tables.
//
// Process reader and part reader call each other, the bytes left falling; the nesting is at most 32 by then. What they write is `put` of text_build.
// A function's promise speaks of a text whose tokens at the position are those of some part, as they are in every text that has the form: it does not answer
// None there.
//
// specs/Found   what is read at a position
// specs/Opened  a part up to its first process: what is written, and what is left to read
//
// words   names, timers and fields
// values  values by number: a location of the script, or a slot of the scope
// heads   a part up to its first process
// parts   parts and processes
//
// proofs/Peeling    tokens peeled off a text
// proofs/Arguments  values by number, and the arguments of a call
// proofs/Fronts     a part up to its first process, form by form
// proofs/Putting    parts and processes from what is read and called
#![tactic(auto, unfolding(text::specs::Tokens::lex_from, terms::specs::Characters::class_of))]

mod heads;
pub mod parts;
pub mod values;
pub mod words;

// A word as a name: where it ends, its letters, and whether it begins with a capital.
#[derive(Clone, Copy)]
pub struct Named {
    pub end: usize,
    pub key: table::Key,
    pub capital: bool,
}

// A timer: where it ends, and its word in a row.
#[derive(Clone, Copy)]
pub struct Timed {
    pub end: usize,
    pub t: u32,
}

// A timer and a name, each with its comma.
#[derive(Clone, Copy)]
pub struct Pair {
    pub end: usize,
    pub t: u32,
    pub key: table::Key,
    pub capital: bool,
}

// A channel, a timer and a name in an output's or an input's brackets, each with its comma.
#[derive(Clone, Copy)]
pub struct Front {
    pub end: usize,
    pub chan: table::Key,
    pub t: u32,
    pub key: table::Key,
    pub capital: bool,
}

// The arguments of a call: where they end, how many, at most 5, and the first four.
#[derive(Clone, Copy)]
pub struct Args {
    pub end: usize,
    pub n: u32,
    pub first: table::Key,
}

// A part up to its first process: where that begins, its form, and the scope of the first.
#[derive(Clone, Copy)]
pub struct Open {
    pub end: usize,
    pub form: text_parts::Form,
    pub inner: text_build::Scope,
}

// Where a part or a process ends, and its least place.
#[derive(Clone, Copy)]
pub struct Placed {
    pub end: usize,
    pub low: usize,
}
