// The bus columns of A in linear time.
#![tactic(auto)]

pub mod inner;
