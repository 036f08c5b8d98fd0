// The writers of P and q.
#![tactic(auto)]

pub mod inner;
