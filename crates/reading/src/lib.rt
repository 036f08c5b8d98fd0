// The reading of a solution: the lists of x as parts of it, the prices, the objective.
#![tactic(auto)]

mod checks;
mod inner;
mod objectives;
mod parts;
mod pricing;

pub use checks::{part_check, reading_check};
pub use objectives::{objective, objective_of_code};
pub use parts::part;
pub use pricing::prices;

// The lists of `SocWrSolution` that x holds.
#[derive(Clone, Copy)]
pub enum SolutionList {
    Pg,
    Qg,
    W,
    Wr,
    Wi,
    Pf,
    Pt,
    Qf,
    Qt,
}

// The network's objective. Other is any whose value the solver alone knows.
#[derive(Clone, Copy)]
pub enum PreparedObjective {
    Feasibility,
    NetworkGeneratorCost,
    Other,
}
