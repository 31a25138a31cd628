// Steps on tables: definitions and laws, and no code.
#![tactic(auto)]
