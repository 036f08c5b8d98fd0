// The vocabulary of a sensitivity: what it is taken of, what it is taken by, and how it is solved.
#![tactic(auto)]

mod axes;
mod codes;
pub mod inner;
mod scale;
mod selector;

pub use codes::{axis_at, mode_at, operand_at, parameter_at};
pub use scale::served_unit_scale;
pub use selector::selector_new;

// Active or reactive power.
#[derive(Clone, Copy)]
pub enum Power {
    Active,
    Reactive,
}

// Which end of a branch a flow is measured at.
#[derive(Clone, Copy)]
pub enum End {
    From,
    To,
}

// How a voltage is represented: polar, or the lift to products of voltages.
#[derive(Clone, Copy)]
pub enum VoltageKind {
    Magnitude,
    Angle,
    Squared,
    ProductReal,
    ProductImag,
}

// Which coefficient of a generator's cost.
#[derive(Clone, Copy)]
pub enum CostTerm {
    Quadratic,
    Linear,
}

// The real and the imaginary part of an admittance.
#[derive(Clone, Copy)]
pub enum GB {
    Conductance,
    Susceptance,
}

// A lower or an upper limit.
#[derive(Clone, Copy)]
pub enum Bound {
    Min,
    Max,
}

// Tap ratio or phase shift of a transformer.
#[derive(Clone, Copy)]
pub enum TapKind {
    Ratio,
    PhaseShift,
}

// What a sensitivity is taken of.
#[derive(Clone, Copy)]
pub enum Operand {
    Price(Power),
    Dispatch(Power),
    Flow { power: Power, end: End },
    Voltage(VoltageKind),
}

// What a sensitivity is taken by.
#[derive(Clone, Copy)]
pub enum Parameter {
    Demand(Power),
    Cost(CostTerm),
    LineLimit,
    SeriesAdmittance(GB),
    ShuntAdmittance(GB),
    VoltageBound(Bound),
    GenBound { power: Power, bound: Bound },
    Transformer(TapKind),
    Switching,
    ConstraintLimit,
}

// The elements that an operand or a parameter ranges over.
#[derive(Clone, Copy)]
pub enum Axis {
    Bus,
    Branch,
    Generator,
    Constraint,
}

// Which linear systems are solved.
#[derive(Clone, Copy)]
pub enum Mode {
    Forward,
    Adjoint,
    Auto,
}

// What a selector has, its lists being lent: how many items, and the sign of what is read.
#[derive(Clone, Copy)]
pub struct Items {
    pub count: u64,
    pub sign: f64,
}

// The lists of a selector, as a caller lends them to be written.
#[derive(Drop)]
pub struct SelectorLists<'a> {
    pub starts: &'a mut [u32],
    pub rows: &'a mut [u32],
    pub weights: &'a mut [f64],
    pub elements: &'a mut [u32],
}
