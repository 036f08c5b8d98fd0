// The entries as C links them: one module for each part of the header include/socwr.h. Each calls the function of kernel that has its name.
// Kept: each function stands twice: a static library exports those here, vectors links the library crate kernel, so each export is a call.
#![tactic(auto)]

pub mod combinations;
pub mod kkt_matrix;
pub mod numbers;
pub mod programs;
pub mod readings;
pub mod sens;
