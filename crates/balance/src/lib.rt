// The balance rows of all buses, in one pass over the records.
#![tactic(auto)]

// Kept: q, where it is set the reactive rows, is a test, as the definitions have it; an enum of two would be turned to it in each clause.
// Kept: (net, q, r), no struct: each function that takes r would make it anew or copy it, since those without r take (net, q).
// Kept: r + n < 2^32 and as many cursors as buses are asked beside them: Buckets, of crate dealing, knows no network.

pub mod inner;

// What stands at a bus: a generator, or a branch with its from or its to end.
#[derive(Clone, Copy)]
pub enum End {
    Gen,
    From,
    To,
}
