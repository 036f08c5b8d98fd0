// The writer of b.
#![tactic(auto)]

pub mod inner;
