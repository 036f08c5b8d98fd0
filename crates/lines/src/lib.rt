// The rows of the program but the balance rows: Ohm rows have at most four terms, the others at most two.
#![tactic(auto)]

pub mod inner;

// A term: the column and the coefficient. The row has it where it is on.
// Kept: no Option, since a term that is off keeps its column, and both terms are bounded and written alike.
#[derive(Clone, Copy)]
pub struct Spot {
    pub on: bool,
    pub col: u32,
    pub val: f64,
}

// A row: its number, its b and its terms by ascending column.
#[derive(Clone, Copy)]
pub struct Line {
    pub row: u32,
    pub rhs: f64,
    pub first: Spot,
    pub second: Spot,
}

// A value for each row of a second-order cone. That of three rows has the last twice.
#[derive(Clone, Copy)]
pub struct Four<T> {
    pub a: T,
    pub b: T,
    pub c: T,
    pub d: T,
}

// The rows themselves.
pub type Cone = Four<Line>;

// An Ohm row: its number, its columns, and the coefficients of w, wr and wi. That of the flow is 1.
#[derive(Clone, Copy)]
pub struct Ohm {
    pub row: u32,
    pub w: u32,
    pub wr: u32,
    pub wi: u32,
    pub flow: u32,
    pub at_w: f64,
    pub at_wr: f64,
    pub at_wi: f64,
}
