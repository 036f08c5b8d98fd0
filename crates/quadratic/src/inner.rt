// P by compressed columns.
ghost use Rattle.std.specs.Prelude.{◌≡◌, [], ◌+◌, ◌≤◌, ◌<◌, ◌^◌, set};
ghost use Rattle.lists.specs.UpTo.{listed};
ghost use Rattle.matrix.specs.Lists.{quadratic_matrix};
ghost use Rattle.cells.specs.Lent.{WholeIn};
ghost use Rattle.cells.specs.Puts.{PutsColumns};
ghost use Rattle.quadratic.specs.Quadratic.{quad_value, quad_cells, quad_count};
ghost use Rattle.numbering.specs.Layout.{layout_column};
ghost use Rattle.numbering.specs.Network.{grid};
ghost use Rattle.numbering.specs.declared.ColumnName.TheVariants.{Pg};

use cells::inner::bit_nonzero;
use cells::{Cells, Compressed};
use lists::inner::store;
use numbering::Network;

pub mod linear;

// P at the pg of generator g: twice its quadratic cost.
pub fn quad_value(net: &Network<'_>, g: usize) -> f64
    requires { g < net.now.layout.k }
    ensures { result ≡ quad_value net.now.layout net.now.bytes.now g }
{
    2.0 * net.generator(g).cq()
}

// How many entries P has.
pub fn count_p(net: &Network<'_>) -> usize
    ensures { result ≡ quad_count net.now.layout net.now.bytes.now net.now.layout.k }
{
    let mut count = 0;
    for g in 0..net.layout.k {
        count += bit_nonzero(quad_value(net, g));
    }
    count
}

// The pg columns: twice the quadratic cost on the diagonal.
fn put_quads(starts: &mut [u32], cells: &mut Cells<'_>, net: &Network<'_>)
    requires { cells.old.at < 1000000 }
    ensures columns { PutsColumns (listed net.now.layout.k (quad_cells net.now.layout net.now.bytes.now)) (layout_column net.now.layout (Pg 0)) starts.old cells.old starts.new cells.new }
    ensures upper_bound { cells.new.at ≤ cells.old.at + net.now.layout.k }
{
    let pg = net.layout.pg_column(0) as usize;
    for g in 0..net.layout.k {
        let v = quad_value(net, g);
        cells.put_nonzero((pg + g) as u32, v);
        cells.end_column(starts, pg + g);
    }
}

// Columns without cells, from column c on.
fn put_empty(starts: &mut [u32], cells: &Cells<'_>, c: usize, count: usize)
    requires { (c + count < 1000000) × (cells.now.at < 2 ^ 32) }
    ensures { PutsColumns (listed count (λ j. [])) c starts.old cells.now starts.new cells.now }
{
    for i in 0..count {
        cells.end_column(starts, c + i);
    }
}

// All of P: the columns before those of pg, and behind them, are empty.
fn put_all(starts: &mut [u32], cells: &mut Cells<'_>, net: &Network<'_>)
    requires { cells.old.at < 1000000 }
    ensures { PutsColumns (quadratic_matrix (grid net.now)) 0 (set starts.old 0 cells.old.at) cells.old starts.new cells.new }
{
    let pg = net.layout.pg_column(0) as usize;
    let behind = net.layout.pg_column(net.layout.k) as usize;
    let others = net.layout.column_count() as usize - behind;
    store(starts, 0, cells.at as u32);
    put_empty(starts, cells, 0, pg);
    put_quads(starts, cells, net);
    put_empty(starts, cells, behind, others);
}

// All of P from the front of the lists on, and how many entries it has.
// Kept: the likeness with A's is how lists become cells: `Cells` borrows two of the three fields, and a method would borrow starts too.
pub fn fill_p(lists: &mut Compressed<'_>, net: &Network<'_>) -> usize
    ensures { WholeIn (quadratic_matrix (grid net.now)) lists.old lists.new result }
{
    let mut cells = Cells {
        rows: lists.rows,
        vals: lists.values,
        at: 0,
    };
    put_all(lists.starts, &mut cells, net);
    cells.at
}
