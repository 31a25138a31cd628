// What a listing says: definitions and laws, and no code.
#![tactic(auto)]
