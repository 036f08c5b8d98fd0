// Counted first, then dealt to their rows.
pub mod ends;
pub mod passes;
pub mod sorted;
