// Layer 2, reading and writing: the round trip of the tables, as laws. What the write call writes for a table that passes question 17 and has no mark
// can be read again.
//
// proofs/Scope      what may stand for the names in scope at a place: a location, or a variable that is bound
// proofs/Process    the process at a place with values put in is well-formed, calls what is defined, and has no unbound variable
// proofs/Tables     a table's network is `Writable` and `Sound`: `back-writable`, `back-sound`
// proofs/RoundTrip  the round trip: `table-form`, `table-only-limits`, `table-round-trip`; of what the write call writes: `written-again`

#![tactic(auto)]
