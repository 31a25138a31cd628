// The marking procedure on the checkpoint graph: definitions and laws, and no code. specs/ has the procedure
// and what is claimed of it, proofs/ that it holds.
#![tactic(auto)]
