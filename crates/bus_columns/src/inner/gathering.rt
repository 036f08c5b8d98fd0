// The coefficients of the branches' buses in the Ohm rows, gathered in one pass over the branches.
ghost use Rattle.std.specs.Prelude.{◌≡◌, ◌+◌, ◌*◌, ◌≤◌, ◌<◌, length};
ghost use Rattle.lists.specs.UpTo.{each};
ghost use Rattle.numbering.specs.Network.{grid};
ghost use Rattle.ring.specs.Ops.{rounded};
ghost use Rattle.rows.specs.Branch.{branch_at};
ghost use Rattle.rows.specs.Rows.{w, ohm_value};
ghost use Rattle.cells.specs.Filled.{Filled};
ghost use Rattle.bus_columns.specs.Gathered.{place_of, four_of};

use crate::inner::coefficients::Coefficients;
use branch::inner::ohm::w_at;
use branch::inner::series;
use numbering::Network;
use rows::OhmRow;

// The four of branch e.
fn put_four(vals: &mut [f64], at: usize, net: &Network<'_>, e: usize)
    requires { (e < net.now.layout.m) × (at + 4 ≤ length vals.old) }
    ensures { Filled (four_of (grid net.now) e) vals.old at vals.new }
{
    let r = net.branch(e);
    let t = series(r);
    let pf = w_at(OhmRow::Pf, t, r);
    let qf = w_at(OhmRow::Qf, t, r);
    let pt = w_at(OhmRow::Pt, t, r);
    let qt = w_at(OhmRow::Qt, t, r);
    vals[at] = pf;
    vals[at + 1] = qf;
    vals[at + 2] = pt;
    vals[at + 3] = qt;
}

// Those of all branches, from position at on.
// Kept: by index, into a list from a place on: e names the branch too, and `Filled` says what four places hold, which chunks would say of each part.
pub(crate) fn gather(vals: &mut [f64], at: usize, net: &Network<'_>)
    requires { at + 4 * net.now.layout.m ≤ length vals.old }
    ensures { Filled (each net.now.layout.m (four_of (grid net.now))) vals.old at vals.new }
{
    for e in 0..net.layout.m {
        put_four(vals, at + 4 * e, net, e);
    }
}

// The place of an Ohm row among a branch's four.
// Kept: record_columns' `thermal_place` has other numbers for the four rows.
fn place(q: OhmRow) -> usize
    ensures value { result ≡ place_of q }
    ensures upper_bound { result < 4 }
{
    match q {
        OhmRow::Pf => 0,
        OhmRow::Qf => 1,
        OhmRow::Pt => 2,
        OhmRow::Qt => 3,
    }
}

impl<'a> Coefficients<'a> {
    // That of branch e's bus in an Ohm row.
    pub(crate) fn of(&self, q: OhmRow, e: usize) -> f64
        requires { e < self.now.net.layout.m }
        ensures { result ≡ ohm_value (branch_at rounded (grid self.now.net) e) q w }
    {
        self.values[4 * e + place(q)]
    }
}
