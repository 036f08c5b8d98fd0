// A solution of an accepted network: whether x and z have its lengths.
#![tactic(auto)]

pub mod inner;
