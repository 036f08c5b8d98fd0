// Numbering of the rows and columns of the SOCWR program.
#![tactic(auto)]

pub mod cones;
pub mod inner;
pub mod layout;
pub mod network;

pub use network::Network;

// A point of a row of things that have several points each: the thing, and the place in it.
#[derive(Clone, Copy)]
pub struct Place {
    pub item: usize,
    pub at: usize,
}

// A name as numbers: a block, one of its records, and the place among that record's rows.
#[derive(Clone, Copy)]
pub struct Key {
    pub block: usize,
    pub item: usize,
    pub place: usize,
}

// The columns by name. Cost is the epigraph column of a piecewise generator.
#[derive(Clone, Copy)]
pub enum ColumnName {
    Pg(usize),
    Qg(usize),
    W(usize),
    Wr(usize),
    Wi(usize),
    Pf(usize),
    Pt(usize),
    Qf(usize),
    Qt(usize),
    CostOf(usize),
}

// The rows by name: a segment by its generator and its number there, a cone's row by its branch and its place there.
#[derive(Clone, Copy)]
pub enum RowName {
    Pbal(usize),
    Qbal(usize),
    OhmPf(usize),
    OhmQf(usize),
    OhmPt(usize),
    OhmQt(usize),
    Wub(usize),
    Wlb(usize),
    Pgub(usize),
    Pglb(usize),
    Qgub(usize),
    Qglb(usize),
    Angub(usize),
    Anglb(usize),
    Segment(usize, usize),
    Jabr(usize, usize),
    Thermal(usize, usize),
}

// What is counted over the records of a kind: limited branches, piecewise generators, or segments of generators.
#[derive(Clone, Copy)]
pub enum Tally {
    Limited,
    Piecewise,
    Segments,
}

// How many buses, branches, generators, segments, limited branches (T) and cost columns there are.
#[derive(Clone, Copy)]
pub struct SocWrLayout {
    pub n: usize,
    pub m: usize,
    pub k: usize,
    pub s: usize,
    pub t: usize,
    pub cost_columns: usize,
}

// The layout of checked records, and how many limited branches come before a given one.
#[derive(Clone, Copy)]
pub struct CheckedLayout {
    pub layout: SocWrLayout,
    pub before: usize,
}
