// What each call answers: definitions and laws, and no code.
#![tactic(auto)]
