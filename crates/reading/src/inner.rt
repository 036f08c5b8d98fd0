// What the entries do once their checks have passed.
pub mod fill;
