// The causes that turn one record away.
#![tactic(auto)]

pub mod inner;
