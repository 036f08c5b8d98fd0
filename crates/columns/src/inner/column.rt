// One column of the KKT system by a parameter.
// Kept: x and z beside the network, no point: column_of tests their lengths, and `Point` is of complementarity, else not needed in columns.
// Kept: `before` with its clause: the record check counts it in passing, and only line_limit reads it; a struct would be made and read once.
ghost use Rattle.std.specs.Prelude.{◌≡◌, ◌<◌, length};
ghost use Rattle.refusals.specs.Refusals.{answer_if, left_in};
ghost use Rattle.numbering.specs.Tally.{tally_of};
ghost use Rattle.numbering.specs.Network.{grid};
ghost use Rattle.numbering.specs.declared.Tally.TheVariants.{Limited};
ghost use Rattle.elements.specs.Lengths.{parameter_len};
ghost use Rattle.admittance.specs.Stores.{stored_all};
ghost use Rattle.columns.specs.Jacobian.{stores, dim, jacobian, piecewise_cause, parameter_cause, column_cause};

use crate::inner::limit::line_limit;
use admittance::inner::series::series_admittance;
use admittance::inner::shunt::shunt;
use elements::inner::lengths::{asks_cost, parameter_length};
use interface::Parameter;
use lists::inner::fill;
use numbering::Network;
use plain_columns::inner::{cost, demand, gen_bound, voltage_bound};
use refusals::{Refusal, refuse_unless, room_for};
use solution::inner::solution_cause;

// The stores of a column; before branch i there are so many limited ones.
// Kept: one match on an enum, an arm for each parameter: no table and no flag, which a closure or dyn could take the place of.
#[tactic(auto, unfolding(crate::specs::Jacobian::stores, admittance::specs::Stores::stored_all))]
fn write(
    net: &Network<'_>,
    x: &[f64],
    z: &[f64],
    p: Parameter,
    i: usize,
    before: usize,
    column: &mut [f64],
)
    requires i_bound { i < parameter_len net.now.layout.n net.now.layout.m net.now.layout.k p }
    requires before_value { i < net.now.layout.m → before ≡ tally_of Limited net.now.bytes.now net.now.layout.n i }
    ensures { column.new ≡ stored_all (stores (grid net.now) x.now z.now p i) column.old }
{
    let l = net.layout;
    match p {
        Parameter::Demand(power) => demand(l, power, i, column),
        Parameter::Cost(term) => cost(l, term, i, x, column),
        Parameter::LineLimit => line_limit(net, i, before, z, column),
        Parameter::SeriesAdmittance(gb) => series_admittance(net, gb, i, x, z, column),
        Parameter::ShuntAdmittance(gb) => shunt(l, gb, i, x, z, column),
        Parameter::VoltageBound(bound) => voltage_bound(l, bound, i, z, column),
        Parameter::GenBound { power, bound } => gen_bound(l, power, bound, i, z, column),
        Parameter::Transformer(_) => {}
        Parameter::Switching => {}
        Parameter::ConstraintLimit => {}
    }
}

// nvar + ncon.
fn dim(net: &Network<'_>) -> usize
    ensures { result ≡ dim (grid net.now) }
{
    net.layout.column_count() as usize + net.layout.row_count() as usize
}

// 8.
fn piecewise_cause(net: &Network<'_>, p: Parameter, i: usize) -> Result<(), Refusal>
    requires { i < parameter_len net.now.layout.n net.now.layout.m net.now.layout.k p }
    ensures { result ≡ piecewise_cause (grid net.now) p i }
{
    if !asks_cost(p) {
        return Ok(());
    }
    let r = net.generator(i);
    refuse_unless(!r.piecewise(), Refusal::PiecewiseCost(r.id() as u64))
}

// 9, 7, 8.
fn parameter_cause(net: &Network<'_>, p: Parameter, i: usize) -> Result<(), Refusal>
    ensures { result ≡ parameter_cause (grid net.now) p i }
{
    let l = net.layout;
    let items = parameter_length(l.n, l.m, l.k, p).ok_or(Refusal::NotInSocWr)?;
    refuse_unless(i < items, Refusal::PastEnd(i as u64))?;
    piecewise_cause(net, p, i)
}

// 6, 9, 7, 8, 10.
fn column_cause(
    net: &Network<'_>,
    p: Parameter,
    i: usize,
    xs: usize,
    zs: usize,
    there: usize,
) -> Result<(), Refusal>
    ensures { result ≡ column_cause (grid net.now) p i xs zs there }
{
    solution_cause(net, xs, zs)?;
    parameter_cause(net, p, i)?;
    room_for(dim(net), there)
}

// The column of an accepted network.
pub fn column_of(
    net: &Network<'_>,
    x: &[f64],
    z: &[f64],
    p: Parameter,
    i: usize,
    before: usize,
    column: &mut [f64],
) -> Result<u64, Refusal>
    requires { i < net.now.layout.m → before ≡ tally_of Limited net.now.bytes.now net.now.layout.n i }
    ensures value { result ≡ answer_if (column_cause (grid net.now) p i (length x.now) (length z.now) (length column.old)) (dim (grid net.now)) }
    ensures column_after { column.new ≡ left_in (column_cause (grid net.now) p i (length x.now) (length z.now) (length column.old)) (jacobian (grid net.now) x.now z.now p i) column.old }
{
    column_cause(net, p, i, x.len(), z.len(), column.len())?;
    let need = dim(net);
    fill(column, need, 0.0);
    write(net, x, z, p, i, before, &mut column[..need]);
    Ok(need as u64)
}
