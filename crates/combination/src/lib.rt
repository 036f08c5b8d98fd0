// Both combinations of a sensitivity from a given solution.
#![tactic(auto)]

mod combine;
mod direction;

pub use direction::forward_adjoint;
use sparse::Selector;

// What is combined, as it is lent. Forward, the solution has a column for each column of the result, and the right-hand side
// is not looked at; adjoint, the solution has a column for each item.
#[derive(Clone, Copy)]
pub struct Solved<'a> {
    pub dim: usize,
    pub columns: usize,
    pub selector: Selector<'a>,
    pub sign: f64,
    pub rhs: &'a [f64],
    pub solution: &'a [f64],
}
