// The checks of each call: definitions and laws, and no code.
#![tactic(auto)]
