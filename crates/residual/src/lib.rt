// What refinement of a solution asks: the residual, and the largest magnitude in a matrix.
#![tactic(auto)]

mod magnitude;
mod residuals;

pub use magnitude::max_abs;
pub use residuals::residual;
use sparse::Entries;

// A system of equations and an answer to it, as they are lent: the entries of its matrix, with eps on the diagonal after them
// where it is not 0. The right-hand side and the answer have a column for each system.
#[derive(Clone, Copy)]
pub struct System<'a> {
    pub dim: usize,
    pub columns: usize,
    pub entries: Entries<'a>,
    pub eps: f64,
    pub rhs: &'a [f64],
    pub answer: &'a [f64],
}
