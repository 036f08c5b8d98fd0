// Names of rows and columns: as keys of block, record and place, and the name of a given number.
#![tactic(auto)]

pub mod keys;
pub mod named;
