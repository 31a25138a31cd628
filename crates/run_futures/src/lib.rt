// Futures and what they need: definitions and laws, and no code.
#![tactic(auto)]
