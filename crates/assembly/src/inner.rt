// A by compressed columns: its parts one after the other, and their count.
ghost use Rattle.std.specs.Prelude.{◌≡◌, ◌+◌, ◌*◌, ◌≤◌, ◌<◌, length, set};
ghost use Rattle.lists.specs.UpTo.{listed, sum};
ghost use Rattle.lists.specs.Compressed.{joined};
ghost use Rattle.rows.specs.Program.{matrix};
ghost use Rattle.matrix.specs.Columns.{w_cells};
ghost use Rattle.cells.specs.Lent.{WholeIn};
ghost use Rattle.cells.specs.Puts.{cells_of, SameLent, PutsColumns};
ghost use Rattle.bus_columns.specs.Counts.{own_cells, from_cells, to_cells};
ghost use Rattle.assembly.specs.Ahead.{Ahead};
ghost use Rattle.assembly.specs.Parts.{generator_columns, product_columns, flow_columns, branch_columns, most_a, Roomy};
ghost use Rattle.numbering.specs.Layout.{layout_column, nvar_of};
ghost use Rattle.numbering.specs.Network.{grid};
ghost use Rattle.numbering.specs.declared.ColumnName.TheVariants.{Pg, W, Wr, Pf};

use bus_columns::inner::counts::{count_from, count_own, count_to};
use bus_columns::inner::put_buses;
use cells::{Cells, Compressed};
use lists::inner::store;
use numbering::Network;
use record_columns::inner::branches::{put_flows, put_wis, put_wrs};
use record_columns::inner::generators::{put_costs, put_pgs, put_qgs};
use rows::OhmRow;

// The pg and qg columns.
fn fill_generators(starts: &mut [u32], cells: &mut Cells<'_>, net: &Network<'_>)
    requires { cells.old.at < 500000 }
    ensures columns { PutsColumns (generator_columns (grid net.now)) (layout_column net.now.layout (Pg 0)) starts.old cells.old starts.new cells.new }
    ensures upper_bound { cells.new.at ≤ cells.old.at + 6 * net.now.layout.k + net.now.layout.s }
{
    put_pgs(starts, cells, net);
    put_qgs(starts, cells, net);
}

// The w columns. The starts of the columns behind them, which are written next, serve meanwhile for the ends of the branches by bus,
// two for each branch, and the values of those columns for the branches' coefficients.
fn fill_buses(starts: &mut [u32], cells: &mut Cells<'_>, net: &Network<'_>)
    requires at_bound { (cells.old.at < 900000) × (layout_column net.now.layout (W net.now.layout.n) + 1 + 2 * net.now.layout.m ≤ length starts.old) }
    requires m_in_bounds { cells.old.at + sum net.now.layout.n (λ i. length (own_cells (grid net.now) i)) + 12 * net.now.layout.m ≤ length cells.old.vals.now }
    ensures lent { SameLent cells.old cells.new }
    ensures ahead { Ahead (listed net.now.layout.n (w_cells (grid net.now))) (layout_column net.now.layout (W 0)) (2 * net.now.layout.m) (cells.old.at + sum net.now.layout.n (λ i. length (own_cells (grid net.now) i)) + 12 * net.now.layout.m) starts.old (cells_of cells.old) starts.new (cells_of cells.new) }
    ensures upper_bound { cells.new.at ≤ cells.old.at + 4 * net.now.layout.n + 8 * net.now.layout.m }
{
    let l = net.layout;
    let gathered = cells.at + count_buses(net) + 8 * l.m;
    let first = l.w_column(0) as usize + 1;
    let end = l.w_column(l.n) as usize + 1 + 2 * l.m;
    put_buses(&mut starts[first..end], cells, gathered, net);
}

// The wr and wi columns.
fn fill_products(starts: &mut [u32], cells: &mut Cells<'_>, net: &Network<'_>)
    requires { cells.old.at < 400000 }
    ensures columns { PutsColumns (product_columns (grid net.now)) (layout_column net.now.layout (Wr 0)) starts.old cells.old starts.new cells.new }
    ensures upper_bound { cells.new.at ≤ cells.old.at + 14 * net.now.layout.m }
{
    put_wrs(starts, cells, net);
    put_wis(starts, cells, net);
}

// The pf, pt, qf and qt columns.
fn fill_flows(starts: &mut [u32], cells: &mut Cells<'_>, net: &Network<'_>)
    requires { cells.old.at < 700000 }
    ensures columns { PutsColumns (flow_columns (grid net.now)) (layout_column net.now.layout (Pf 0)) starts.old cells.old starts.new cells.new }
    ensures upper_bound { cells.new.at ≤ cells.old.at + 12 * net.now.layout.m }
{
    let l = net.layout;
    put_flows(starts, cells, net, OhmRow::Pf, l.pf_column(0) as usize);
    put_flows(starts, cells, net, OhmRow::Pt, l.pt_column(0) as usize);
    put_flows(starts, cells, net, OhmRow::Qf, l.qf_column(0) as usize);
    put_flows(starts, cells, net, OhmRow::Qt, l.qt_column(0) as usize);
}

// The columns behind the bus columns.
fn fill_branches(starts: &mut [u32], cells: &mut Cells<'_>, net: &Network<'_>)
    requires { cells.old.at < 300000 }
    ensures columns { PutsColumns (branch_columns (grid net.now)) (layout_column net.now.layout (Wr 0)) starts.old cells.old starts.new cells.new }
    ensures upper_bound { cells.new.at ≤ cells.old.at + 26 * net.now.layout.m + net.now.layout.s }
{
    fill_products(starts, cells, net);
    fill_flows(starts, cells, net);
    put_costs(starts, cells, net);
}

// How many cells the buses have in their own rows, and the branches in the columns of their ends.
fn count_buses(net: &Network<'_>) -> usize
    ensures value { result ≡ sum net.now.layout.n (λ i. length (own_cells (grid net.now) i)) }
    ensures upper_bound { result ≤ 4 * net.now.layout.n }
{
    let mut count = 0;
    for i in 0..net.layout.n {
        count += count_own(net, i);
    }
    count
}

fn count_ends(net: &Network<'_>) -> usize
    ensures value { result ≡ sum net.now.layout.m (λ e. length (from_cells (grid net.now) e) + length (to_cells (grid net.now) e)) }
    ensures upper_bound { result ≤ 8 * net.now.layout.m }
{
    let mut count = 0;
    for e in 0..net.layout.m {
        count += count_from(net, e) + count_to(net, e);
    }
    count
}

// How many entries A has: the writers run on lists without a place, and the cells of the buses are counted.
pub fn count_a(net: &Network<'_>) -> usize
    ensures { result ≡ length (joined (matrix (grid net.now))) }
{
    let mut cells = Cells {
        rows: &mut [],
        vals: &mut [],
        at: 0,
    };
    fill_generators(&mut [], &mut cells, net);
    cells.at += count_buses(net) + count_ends(net);
    fill_branches(&mut [], &mut cells, net);
    cells.at
}

// All of A.
fn fill_all(starts: &mut [u32], cells: &mut Cells<'_>, net: &Network<'_>)
    requires at_value { cells.old.at ≡ 0 }
    requires l_in_bounds { nvar_of net.now.layout + 1 ≤ length starts.old }
    requires roomy { Roomy net.now.layout net.now.bytes.now cells.old.vals.now }
    ensures columns { PutsColumns (matrix (grid net.now)) 0 (set starts.old 0 0) cells.old starts.new cells.new }
    ensures upper_bound { cells.new.at ≤ most_a net.now.layout }
{
    store(starts, 0, 0);
    fill_generators(starts, cells, net);
    fill_buses(starts, cells, net);
    fill_branches(starts, cells, net);
}

// All of A from the front of the lists on, and how many entries it has.
// Kept: the likeness with P's is how lists become cells, as at quadratic's `fill_p`.
pub fn fill_a(lists: &mut Compressed<'_>, net: &Network<'_>) -> usize
    requires l_in_bounds { nvar_of net.now.layout + 1 ≤ length lists.old.starts.now }
    requires roomy { Roomy net.now.layout net.now.bytes.now lists.old.values.now }
    ensures whole { WholeIn (matrix (grid net.now)) lists.old lists.new result }
    ensures upper_bound { result ≤ most_a net.now.layout }
{
    let mut cells = Cells {
        rows: lists.rows,
        vals: lists.values,
        at: 0,
    };
    fill_all(lists.starts, &mut cells, net);
    cells.at
}
