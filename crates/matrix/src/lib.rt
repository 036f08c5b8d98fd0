// P, q, A and b as lists: definitions and laws, no code of its own.
#![tactic(auto)]
