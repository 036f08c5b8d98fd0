// The columns of the KKT system by parameter.
#![tactic(auto)]

ghost use Rattle.std.specs.Prelude.{◌≡◌, length};
ghost use Rattle.refusals.specs.Refusals.{answer_if, left_in};
ghost use Rattle.records.specs.Case.{case_network};
ghost use Rattle.columns.specs.Jacobian.{dim, jacobian, jacobian_check};

use inner::column::column_of;
use interface::Parameter;
use numbering::Network;
use numbering::layout::check_layout;
use records::Case;
use refusals::Refusal;

mod inner;

// One column of `parameter_jacobian`. It answers the column's length, nvar + ncon.
// Kept: x and z beside the case: they are lent of any length, and column_of asks for their lengths.
pub fn parameter_jacobian(
    case: Case<'_>,
    x: &[f64],
    z: &[f64],
    parameter: Parameter,
    index: usize,
    column: &mut [f64],
) -> Result<u64, Refusal>
    ensures value { result ≡ answer_if (jacobian_check case.entry.n case.entry.m case.entry.k case.entry.s case.entry.bytes.now parameter index (length x.now) (length z.now) (length column.old)) (dim (case_network case.entry)) }
    ensures column_after { column.new ≡ left_in (jacobian_check case.entry.n case.entry.m case.entry.k case.entry.s case.entry.bytes.now parameter index (length x.now) (length z.now) (length column.old)) (jacobian (case_network case.entry) x.now z.now parameter index) column.old }
{
    let checked = check_layout(case, index)?;
    let net = Network {
        layout: checked.layout,
        bytes: case.bytes,
    };
    column_of(&net, x, z, parameter, index, checked.before, column)
}
