// Lists that a caller lends: definitions, laws, and stores.
#![tactic(auto)]

pub mod inner;

// Lent lists of rows, columns and values, and the position of the next entry.
#[derive(Drop)]
pub struct Triplets<'a> {
    pub rows: &'a mut [u32],
    pub cols: &'a mut [u32],
    pub vals: &'a mut [f64],
    pub at: usize,
}
