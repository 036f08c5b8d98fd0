// The columns of A that one record gives: of a generator, of its cost, of a branch.
#![tactic(auto)]

pub mod inner;
