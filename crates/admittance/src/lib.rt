// The columns by a bus's shunt and by a branch's series admittance. Both stand in A: an entry of d_a lands at its row and at its column.
#![tactic(auto)]

pub mod inner;

// An entry of d_a: its row, its column and its value.
#[derive(Clone, Copy)]
pub struct Entry(pub u32, pub u32, pub f64);
