// The writers of A.
#![tactic(auto)]

pub mod inner;
