// Both combinations of `forward_adjoint` from a given solution.
ghost use Rattle.std.specs.Prelude.{◌≡◌, ◌*◌, length, get_or};
ghost use Rattle.std.specs.Float.{binary64, nan};
ghost use Rattle.std.specs.Float.Ieee.{mul};
ghost use Rattle.lists.specs.UpTo.{listed};
ghost use Rattle.combination.specs.Combination.{forward_at, adjoint_at, table};
ghost use Rattle.combination.specs.Summed.{Summed};

use sparse::{Dense, Terms};
use weighing::inner::weigh::weigh_all;
use weighing::{Buffer, Grid, Spot};

// Each element times the sign.
fn scale(out: &mut [f64], sign: f64)
    ensures { out.new ≡ listed (length out.old) (λ i. mul binary64 sign (get_or out.old i nan)) }
{
    for v in out.iter_mut() {
        *v = sign * *v;
    }
}

// Item o, column c: the terms of item o by column c of the solution.
pub(crate) fn forward_into(out: &mut [f64], terms: &Terms<'_>, sign: f64, x: &Dense<'_>)
    requires { (x.now.dim ≡ terms.now.dim) × (length out.old ≡ terms.now.segments * x.now.columns) }
    ensures { (out.new ≡ table terms.now.segments x.now.columns (forward_at x.now.dim terms.now.selector.starts.now terms.now.selector.rows.now terms.now.selector.weights.now sign x.now.values.now)) × (length out.new ≡ terms.now.segments * x.now.columns) }
{
    out.fill(0.0);
    let grid = Grid {
        at: 0,
        dense: 1,
        across: x.columns,
    };
    weigh_all(out, &grid, x, terms);
    scale(out, sign);
}

// The nonzero values of each column by each item's column of the solution, added in the order of the rows.
fn add_columns(out: &mut [f64], rhs: &Dense<'_>, y: &Dense<'_>)
    requires { (y.now.dim ≡ rhs.now.dim) × (length out.old ≡ y.now.columns * rhs.now.columns) }
    ensures { Summed y.now.columns rhs.now.columns rhs.now.dim rhs.now.values.now y.now.values.now (λ k. rhs.now.dim) out.old out.new }
{
    if rhs.dim == 0 {
        return;
    }
    let mut buffer = Buffer::new();
    let mut spot = Spot { column: 0, row: 0 };
    // Kept: a fill of the buffer tells where the next one begins.
    while spot.column < rhs.columns {
        let next = buffer.fill(rhs, spot);
        let grid = Grid {
            at: spot.column,
            dense: rhs.columns,
            across: 1,
        };
        weigh_all(out, &grid, y, &buffer.terms(rhs.dim));
        spot = next;
    }
}

// Item o, column c: the nonzero values of column c of d_k/dp by column o of the solution.
pub(crate) fn adjoint_into(out: &mut [f64], sign: f64, rhs: &Dense<'_>, y: &Dense<'_>)
    requires { (y.now.dim ≡ rhs.now.dim) × (length out.old ≡ y.now.columns * rhs.now.columns) }
    ensures { (out.new ≡ table y.now.columns rhs.now.columns (adjoint_at rhs.now.dim sign rhs.now.values.now y.now.values.now)) × (length out.new ≡ y.now.columns * rhs.now.columns) }
{
    out.fill(0.0);
    add_columns(out, rhs, y);
    scale(out, sign);
}
