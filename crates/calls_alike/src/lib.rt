// Layer 3, the call `same`: names, parts, processes and definitions of two tables compared.
//
// specs/Decides       an answer whether two things are one
// specs/Pieces        the pieces in which parts are compared
//
// parts  names, timers, values, parts and processes
// defs   definitions
//
// proofs/Decided      answers whether two things are one, carried over to other things
// proofs/Fronts       the first elements of two lists: arguments, parameters
// proofs/Pieces       the part at a place in its pieces, under the values of slots
// proofs/Definitions  what a definition of a table is made of
#![tactic(auto)]

pub mod defs;
pub mod parts;
