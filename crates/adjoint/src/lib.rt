// What the adjoint's solve is given: the transposed entries and the selector matrix.
// A dense matrix lies by columns: row r of column c at c * dim + r.
#![tactic(auto)]

mod selectors;
mod transposes;

pub use selectors::selector_matrix;
pub use transposes::transpose;
