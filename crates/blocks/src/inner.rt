// As they are, or as rows of their cone.
pub mod bounded;
pub mod cones;
pub mod diagonal;
pub mod ohm;
pub mod segments;
