// The keep sheet: definitions and laws, and no code.
#![tactic(auto)]
