// Layer 2, reading and writing: what the second pass of reading leaves for a whole text, as definitions with their laws. The code stands in the crates above.
//
// specs/Pass   definitions, bodies and located processes, written one after the other; the components
// specs/Asked  questions 4 to 7 over what was written
//
// proofs/Whole    what stands in a script after reading
// proofs/Sizes    how many places the processes of a text take
// proofs/Once     names numbered by first place are held once and have their forms
// proofs/Heads    the heads of definitions
// proofs/Params   the scope of a body: its definition's parameters
// proofs/Timers   every row's timer is in range
// proofs/Went     what stands goes on standing while rows below it and names are written
// proofs/Bodies   the bodies of definitions, put one after the other
// proofs/Located  the located processes, and where their components stand
// proofs/Reading  so a text that was read stands whole
// proofs/Passing  and its script passes question 17, once 5, 6 and 7 are answered by yes
// proofs/Network  script and components stand for the network of the text
// proofs/Room     names and scopes within their limits leave the word 4 unset
// proofs/Roomy    so do processes
// proofs/Fitting  question 4: the word 4 is 0 exactly if channels, locations and scopes keep within their limits
//
// proofs/AskedRows    a test of every place of a process is a test of its rows
// proofs/AskedPlaces  and so for all places of a text and all rows
// proofs/AskedApart   question 5 over the script is that of `text`
// proofs/AskedCalls   so is question 6
// proofs/AskedBound   so is question 7
// proofs/AskedKnown   then the script holds what every place needs

#![tactic(auto)]
