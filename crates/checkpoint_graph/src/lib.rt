// The checkpoint graph of a run: definitions and laws, and no code. specs/ has what leads to what, proofs/
// what holds of it.
#![tactic(auto)]
