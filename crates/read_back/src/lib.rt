// Layer 3, calls: what the write call writes, the read call reads back as the same network, as a law over the contracts of the three calls.
//
// proofs/Again  under its own edition the same network, under the other not: `read_back`

#![tactic(auto)]
