// The columns that need the layout alone: demand, bounds and cost.
#![tactic(auto)]

pub mod inner;
