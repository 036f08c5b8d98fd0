// A branch as its record says it: the struct of five floats, whether its angle rows have entries, its buses, and its four Ohm rows.
#![tactic(auto)]

pub mod inner;

// The series admittance of a branch and the products of its tap: tr = tap cosine, ti = tap sine, tm2 = tap tap.
#[derive(Clone, Copy)]
pub struct Series {
    pub g: f64,
    pub b: f64,
    pub tr: f64,
    pub ti: f64,
    pub tm2: f64,
}

// A value for each of the four Ohm rows of a branch.
#[derive(Clone, Copy)]
pub struct ByOhmRow<T> {
    pub pf: T,
    pub qf: T,
    pub pt: T,
    pub qt: T,
}

// Coefficients in the rows.
pub type Products = ByOhmRow<f64>;
