// Layer 1, the single-outcome profile: document 02, R-13. No function: definitions (specs/) and what is proved of them (proofs/).
//
//   specs/Profile   which locations conform
//   specs/Outcome   at such a location all whole steps come to the same
//   specs/Examples  locations that conform and that do not; the outcomes of a choice
//
//   proofs/Counts    sums of counts, and what passes a test at most once
//   proofs/Profile   the test is the sentence of document 02
//   proofs/Pairs     who fires alone, and who in a pair
//   proofs/Allowed   what a network allows at a location, by weight: a firing takes away itself and no other
//   proofs/Places    by position, each component has one fate
//   proofs/Single    the claim: `single-outcome`, `step-outcome`

#![tactic(auto)]
