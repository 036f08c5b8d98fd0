// Each as it is, or with its duals and its slacks.
pub mod cones;
pub mod single;
