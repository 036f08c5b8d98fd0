// The rows that bound a voltage, a dispatch, an angle or a flow, and the segments of costs: their right sides.
#![tactic(auto)]

pub mod inner;

// The kinds of rows that bound one thing each: a voltage, a dispatch, an angle.
#[derive(Clone, Copy)]
pub enum BoundKind {
    Wub,
    Wlb,
    Pgub,
    Pglb,
    Qgub,
    Qglb,
    Angub,
    Anglb,
}

// Whether the row's bound is active, and the row's right side.
// Kept: no Option, since the row of a bound that is not active stays, with the right side 1.
#[derive(Clone, Copy)]
pub struct Side {
    pub on: bool,
    pub rhs: f64,
}
