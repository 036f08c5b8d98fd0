// The rows of the SOCWR program: definitions and laws, no code of its own.
#![tactic(auto)]

// The Ohm rows of a branch, each with a flow of its own.
#[derive(Clone, Copy)]
pub enum OhmRow {
    Pf,
    Qf,
    Pt,
    Qt,
}
