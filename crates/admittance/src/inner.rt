// The workers, on the layout of accepted records.
pub mod series;
pub mod shunt;
pub mod stores;
