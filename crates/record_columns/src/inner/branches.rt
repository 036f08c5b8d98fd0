// The branch columns of A.
ghost use Rattle.std.specs.Prelude.{◌≡◌, ◌+◌, ◌*◌, ◌≤◌, ◌<◌};
ghost use Rattle.lists.specs.UpTo.{listed, count};
ghost use Rattle.numbering.specs.Numbering.{row_number};
ghost use Rattle.numbering.specs.Layout.{layout_column};
ghost use Rattle.numbering.specs.Network.{grid};
ghost use Rattle.numbering.specs.declared.ColumnName.TheVariants.{Wr, Wi};
ghost use Rattle.matrix.specs.Columns.{wr_cells, wi_cells, flow_cells, balance_row, thermal_place};
ghost use Rattle.cells.specs.Puts.{PutsCells, PutsColumns};
ghost use Rattle.record_columns.specs.Writers.{wr_angles, wi_angles, product_cells};

use super::generators::put_bounds;
use branch::Products;
use branch::inner::ohm::{wi_products, wr_products};
use branch::inner::places::{end_bus, ohm_row};
use branch::inner::{conic_angle_bound_active, series};
use cells::Cells;
use numbering::Network;
use rows::OhmRow;

// The four Ohm rows of branch e. Called twice, it would be a call of its own, which takes a twentieth of A's time.
#[inline(always)]
fn put_products(cells: &mut Cells<'_>, net: &Network<'_>, e: usize, p: Products)
    requires { (e < net.now.layout.m) × (cells.old.at < 1000000) }
    ensures puts { PutsCells (product_cells (grid net.now) e p) cells.old cells.new }
    ensures upper_bound { cells.new.at ≤ cells.old.at + 4 }
{
    cells.put_nonzero(net.layout.ohm_pf_row(e), p.pf);
    cells.put_nonzero(net.layout.ohm_qf_row(e), p.qf);
    cells.put_nonzero(net.layout.ohm_pt_row(e), p.pt);
    cells.put_nonzero(net.layout.ohm_qt_row(e), p.qt);
}

// The angle rows in the wr column. The tangents are read only where the rows are active.
fn put_wr_angles(cells: &mut Cells<'_>, net: &Network<'_>, e: usize)
    requires { (e < net.now.layout.m) × (cells.old.at < 1100000) }
    ensures puts { PutsCells (wr_angles (grid net.now) e) cells.old cells.new }
    ensures upper_bound { cells.new.at ≤ cells.old.at + 2 }
{
    let r = net.branch(e);
    if conic_angle_bound_active(r) {
        cells.put_nonzero(net.layout.angub_row(e), -r.tan_angmax());
        cells.put_nonzero(net.layout.anglb_row(e), r.tan_angmin());
    }
}

fn put_wr(cells: &mut Cells<'_>, net: &Network<'_>, e: usize)
    requires { (e < net.now.layout.m) × (cells.old.at < 1000000) }
    ensures puts { PutsCells (wr_cells (grid net.now) e) cells.old cells.new }
    ensures upper_bound { cells.new.at ≤ cells.old.at + 7 }
{
    let t = series(net.branch(e));
    put_products(cells, net, e, wr_products(t));
    put_wr_angles(cells, net, e);
    cells.put(net.layout.jabr_row(e, 1), -1.0);
}

// The angle rows in the wi column.
fn put_wi_angles(cells: &mut Cells<'_>, net: &Network<'_>, e: usize)
    requires { (e < net.now.layout.m) × (cells.old.at < 1100000) }
    ensures puts { PutsCells (wi_angles (grid net.now) e) cells.old cells.new }
    ensures upper_bound { cells.new.at ≤ cells.old.at + 2 }
{
    let on = conic_angle_bound_active(net.branch(e));
    put_bounds(cells, on, net.layout.angub_row(e), net.layout.anglb_row(e));
}

// Kept: the likeness with put_wr is its four steps, of which all but the series differ.
fn put_wi(cells: &mut Cells<'_>, net: &Network<'_>, e: usize)
    requires { (e < net.now.layout.m) × (cells.old.at < 1000000) }
    ensures puts { PutsCells (wi_cells (grid net.now) e) cells.old cells.new }
    ensures upper_bound { cells.new.at ≤ cells.old.at + 7 }
{
    let t = series(net.branch(e));
    put_products(cells, net, e, wi_products(t));
    put_wi_angles(cells, net, e);
    cells.put(net.layout.jabr_row(e, 2), -1.0);
}

// Kept: put_wrs, put_wis, put_flows, put_qgs: one loop would take the writer as a closure with its whole contract.
pub fn put_wrs(starts: &mut [u32], cells: &mut Cells<'_>, net: &Network<'_>)
    requires { cells.old.at < 600000 }
    ensures columns { PutsColumns (listed net.now.layout.m (wr_cells (grid net.now))) (layout_column net.now.layout (Wr 0)) starts.old cells.old starts.new cells.new }
    ensures upper_bound { cells.new.at ≤ cells.old.at + 7 * net.now.layout.m }
{
    // By value: behind the reference the counts would be read again after each store.
    let net = *net;
    let col = net.layout.wr_column(0) as usize;
    for e in 0..net.layout.m {
        put_wr(cells, &net, e);
        cells.end_column(starts, col + e);
    }
}

pub fn put_wis(starts: &mut [u32], cells: &mut Cells<'_>, net: &Network<'_>)
    requires { cells.old.at < 600000 }
    ensures columns { PutsColumns (listed net.now.layout.m (wi_cells (grid net.now))) (layout_column net.now.layout (Wi 0)) starts.old cells.old starts.new cells.new }
    ensures upper_bound { cells.new.at ≤ cells.old.at + 7 * net.now.layout.m }
{
    // By value, as in put_wrs.
    let net = *net;
    let col = net.layout.wi_column(0) as usize;
    for e in 0..net.layout.m {
        put_wi(cells, &net, e);
        cells.end_column(starts, col + e);
    }
}

// The balance row that a flow leaves by, and its place among a limited branch's rows.
fn balance_row(q: OhmRow, net: &Network<'_>, i: usize) -> u32
    requires { i < net.now.layout.n }
    ensures { result ≡ row_number (grid net.now) (balance_row q i) }
{
    match q {
        OhmRow::Pf | OhmRow::Pt => net.layout.pbal_row(i),
        OhmRow::Qf | OhmRow::Qt => net.layout.qbal_row(i),
    }
}

// Kept: bus_columns' `place` has other numbers for the four rows.
fn thermal_place(q: OhmRow) -> usize
    ensures value { result ≡ thermal_place q }
    ensures upper_bound { result < 6 }
{
    match q {
        OhmRow::Pf => 1,
        OhmRow::Qf => 2,
        OhmRow::Pt => 4,
        OhmRow::Qt => 5,
    }
}

// The column of a flow of branch e, which rank limited branches come before.
fn put_flow(cells: &mut Cells<'_>, net: &Network<'_>, q: OhmRow, e: usize, rank: usize)
    requires e_lt_m { (e < net.now.layout.m) × (cells.old.at < 1000000) }
    requires rank_value { rank ≡ count e (grid net.now).limited }
    ensures puts { PutsCells (flow_cells (grid net.now) q e) cells.old cells.new }
    ensures upper_bound { cells.new.at ≤ cells.old.at + 3 }
{
    cells.put(balance_row(q, net, end_bus(q, net, e)), -1.0);
    cells.put(ohm_row(q, net, e), 1.0);
    if net.branch(e).thermal_limit_active() {
        cells.put(net.layout.thermal_row(rank, thermal_place(q)), -1.0);
    }
}

// The columns of one flow, from column col on.
pub fn put_flows(
    starts: &mut [u32],
    cells: &mut Cells<'_>,
    net: &Network<'_>,
    q: OhmRow,
    col: usize,
)
    requires { (cells.old.at < 900000) × (col < 900000) }
    ensures columns { PutsColumns (listed net.now.layout.m (flow_cells (grid net.now) q)) col starts.old cells.old starts.new cells.new }
    ensures upper_bound { cells.new.at ≤ cells.old.at + 3 * net.now.layout.m }
{
    // By value, as in put_wrs.
    let net = *net;
    let mut rank = 0;
    for e in 0..net.layout.m {
        put_flow(cells, &net, q, e, rank);
        cells.end_column(starts, col + e);
        rank += usize::from(net.branch(e).thermal_limit_active());
    }
}
