// What a row or a second-order cone of the program gives of the KKT matrix.
#![tactic(auto)]

pub mod inner;
pub mod placed;
pub mod point;

pub use placed::Placed;
pub use point::Point;
