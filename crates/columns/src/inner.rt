// The workers, on the layout of accepted records.
pub mod column;
pub mod limit;
