// Number 6 on an accepted network, for an x and a z of given lengths.
ghost use Rattle.std.specs.Prelude.{◌≡◌};
ghost use Rattle.solution.specs.Lengths.{x_cause, z_cause, solution_cause};
ghost use Rattle.numbering.specs.Network.{grid};

use numbering::Network;
use refusals::{Refusal, refuse_unless};

pub fn x_cause(net: &Network<'_>, xs: usize) -> Result<(), Refusal>
    ensures { result ≡ x_cause (grid net.now) xs }
{
    let nvar = net.layout.column_count() as usize;
    refuse_unless(xs == nvar, Refusal::SolutionLength(0))
}

// Kept: x_cause has another count and another number, which are all that a joint function would take.
pub fn z_cause(net: &Network<'_>, zs: usize) -> Result<(), Refusal>
    ensures { result ≡ z_cause (grid net.now) zs }
{
    let ncon = net.layout.row_count() as usize;
    refuse_unless(zs == ncon, Refusal::SolutionLength(1))
}

// Of both, x first.
pub fn solution_cause(net: &Network<'_>, xs: usize, zs: usize) -> Result<(), Refusal>
    ensures { result ≡ solution_cause (grid net.now) xs zs }
{
    x_cause(net, xs)?;
    z_cause(net, zs)
}
