// The rows of each block: of one kind, for all its records.
#![tactic(auto)]

// Kept: d, where it is set rows of a cone, is a test, as the definitions have it; an enum of two would be turned to it in each clause.
// Kept: (before, curves) and `limits` are what a loop has counted so far, no struct: it would hold the loop's index too, and be made anew in each turn.

pub mod inner;

pub use bounds::BoundKind;
