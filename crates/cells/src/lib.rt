// Cells written by columns, and floats by blocks.
#![tactic(auto)]

pub mod inner;

// Lent lists of rows and values, and the position of the next cell.
// Kept: the position grows with each cell, so a function asks the bound that its turns need (`cells.at < 1000000`); the struct holds none.
#[derive(Drop)]
pub struct Cells<'a> {
    pub rows: &'a mut [u32],
    pub vals: &'a mut [f64],
    pub at: usize,
}

// Lent lists of compressed columns: where each starts, and the rows and the values of their cells.
// Kept: writers take starts and `Cells` side by side: a struct of the two would have one method, and each cell's writer would be called on its field.
#[derive(Drop)]
pub struct Compressed<'a> {
    pub starts: &'a mut [u32],
    pub rows: &'a mut [u32],
    pub values: &'a mut [f64],
}
