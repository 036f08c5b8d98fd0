// What the generators' power costs.
#![tactic(auto)]

pub mod inner;
