// What the entries and the crates above ask: of parameters and operands, of ids, and of a power's balance row.
pub mod ids;
pub mod lengths;
pub mod power;
