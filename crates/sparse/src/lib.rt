// Lists as they are lent, of sparse entries and selectors and of dense matrices, and whether they fit together: number 12's causes.
#![tactic(auto)]

pub mod inner;
pub mod lent;

pub use lent::{Dense, Segment, Terms};

// Entries of a matrix: each has its row, its column and its value at one place of the lists.
#[derive(Clone, Copy)]
pub struct Entries<'a> {
    pub rows: &'a [u32],
    pub cols: &'a [u32],
    pub values: &'a [f64],
}

// Items of rows and weights: item o runs from starts o up to starts (o + 1).
#[derive(Clone, Copy)]
pub struct Selector<'a> {
    pub starts: &'a [u32],
    pub rows: &'a [u32],
    pub weights: &'a [f64],
}
