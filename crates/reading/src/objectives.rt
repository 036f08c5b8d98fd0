// The objective's value.
ghost use Rattle.std.specs.Prelude.{◌≡◌, cond, ltb, ◌≤◌, length, Some, None};
ghost use Rattle.numbering.specs.Layout.{nvar_of};
ghost use Rattle.numbering.specs.Network.{grid};
ghost use Rattle.reading.specs.Reading.{objective_of, objective_answer, objective_at, code_answer};

use crate::PreparedObjective;
use crate::checks::check_part;
use cost::inner::total_cost;
use numbering::Network;
use records::Case;
use refusals::Refusal;

#[tactic(auto, unfolding(crate::specs::Reading::objective_of))]
fn value(net: &Network<'_>, objective: PreparedObjective, x: &[f64], solver: f64) -> f64
    requires { nvar_of net.now.layout ≤ length x.now }
    ensures { result ≡ objective_of (grid net.now) objective x.now solver }
{
    match objective {
        PreparedObjective::Feasibility => 0.0,
        PreparedObjective::NetworkGeneratorCost => total_cost(net, x),
        PreparedObjective::Other => solver,
    }
}

// 0 for feasibility, the generators' cost, or else the solver's number.
pub fn objective(
    case: Case<'_>,
    objective: PreparedObjective,
    x: &[f64],
    solver: f64,
) -> Result<f64, Refusal>
    ensures { result ≡ objective_answer case.entry.n case.entry.m case.entry.k case.entry.s case.entry.bytes.now objective x.now solver }
{
    Ok(value(&check_part(case, x)?, objective, x, solver))
}

// The objective that a caller's code names; 3 and above name nothing.
// Kept: the C interface names an objective by a number.
#[tactic(auto, unfolding(crate::specs::Reading::objective_at))]
fn objective_at(code: u64) -> Option<PreparedObjective>
    ensures { result ≡ cond (ltb code 3) (Some (objective_at code)) None }
{
    match code {
        0 => Some(PreparedObjective::Feasibility),
        1 => Some(PreparedObjective::NetworkGeneratorCost),
        2 => Some(PreparedObjective::Other),
        _ => None,
    }
}

// The same, of the objective with that code.
pub fn objective_of_code(case: Case<'_>, code: u64, x: &[f64], solver: f64) -> Result<f64, Refusal>
    ensures { result ≡ code_answer case.entry.n case.entry.m case.entry.k case.entry.s case.entry.bytes.now code x.now solver }
{
    let net = check_part(case, x)?;
    let objective = objective_at(code).ok_or(Refusal::PastEnd(code))?;
    Ok(value(&net, objective, x, solver))
}
