// Zigzag paths between the checkpoints of a run, and checkpoints that stand together: definitions and laws,
// and no code. specs/ has what a path is and what is claimed of it, proofs/ that it holds.
#![tactic(auto)]
