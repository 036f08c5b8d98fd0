// The number of a name, on counts and records.
#![tactic(auto)]

pub mod numbers;
