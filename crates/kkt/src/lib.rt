// The KKT entries.
#![tactic(auto)]
