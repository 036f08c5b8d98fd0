// Demand 3: the numbering and the places of the KKT entries.
#![tactic(auto)]
