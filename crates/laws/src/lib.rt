// Layer 1, laws of whole steps by the rules that no other crate needs. No function: definitions (specs/) and what is proved of them (proofs/).
//
//   specs/Exchange   two locations in either order: document 02, R-7
//   specs/Steps      the same of the engine's own steps
//   specs/Examples   two steps exchanged, example 8 both ways, a `go` left standing
//
//   proofs/Fires     a list of actions by what it fires: what it replaces and what it leaves; a whole step
//   proofs/Asked     what is asked of the two steps is needed
//   proofs/Exchange  the claim: `exchange`, `any-positions`, `exchange-back`, `goes_on`
//   proofs/Space     a whole step never makes a network smaller: `in-space`
//   proofs/Gaps      the step at a location passes over what is not ready there
//   proofs/Steps     the engine's own steps: `steps-exchange`, `asked-before`

#![tactic(auto)]
