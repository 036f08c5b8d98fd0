// The worker, on the layout of accepted records.
pub mod selector;
