// Lines and their consistency: definitions and laws, and no code. specs/ has what a line is, proofs/
// what holds of lines.
#![tactic(auto)]
