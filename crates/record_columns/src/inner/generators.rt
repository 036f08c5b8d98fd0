// The generator columns of A, and the cost columns.
ghost use Rattle.std.specs.Prelude.{◌≡◌, ◌+◌, ◌*◌, ◌≤◌, ◌<◌};
ghost use Rattle.lists.specs.UpTo.{each, listed, when, sum};
ghost use Rattle.records.specs.Fields.{capability_of};
ghost use Rattle.matrix.specs.Columns.{pg_cells, qg_cells};
ghost use Rattle.cells.specs.Puts.{PutsCells, PutsColumns};
ghost use Rattle.record_columns.specs.Writers.{pair, head, slopes, ones, cost_turn};
ghost use Rattle.numbering.specs.Layout.{layout_column, layout_row};
ghost use Rattle.numbering.specs.Network.{grid};
ghost use Rattle.numbering.specs.declared.ColumnName.TheVariants.{Pg, Qg, CostOf};
ghost use Rattle.numbering.specs.declared.RowName.TheVariants.{Segment};

use cells::Cells;
use numbering::Network;
use records::Record;

// The rows of an upper and a lower bound, where they are active.
pub fn put_bounds(cells: &mut Cells<'_>, on: bool, upper: u32, lower: u32)
    requires { cells.old.at < 2000000 }
    ensures puts { PutsCells (when on (pair upper lower)) cells.old cells.new }
    ensures upper_bound { cells.new.at ≤ cells.old.at + 2 }
{
    if on {
        cells.put(upper, 1.0);
        cells.put(lower, -1.0);
    }
}

// A generator's balance row, and the rows of its bounds where they are active.
fn put_head(cells: &mut Cells<'_>, r: Record<'_>, balance: u32, upper: u32, lower: u32)
    requires { cells.old.at < 1000000 }
    ensures puts { PutsCells (head (capability_of r.entry.bytes.now r.entry.r) balance upper lower) cells.old cells.new }
    ensures upper_bound { cells.new.at ≤ cells.old.at + 3 }
{
    cells.put(balance, 1.0);
    put_bounds(cells, r.generator_capability_active(), upper, lower);
}

// The slopes of count segments, of which the first is segment seg of all.
fn put_slopes(cells: &mut Cells<'_>, net: &Network<'_>, seg: usize, count: usize)
    requires { (cells.old.at < 1100000) × (seg + count ≤ net.now.layout.s) }
    ensures puts { PutsCells (each count (slopes net.now.bytes.now (net.now.layout.n + net.now.layout.m + net.now.layout.k + seg) (layout_row net.now.layout (Segment seg 0)))) cells.old cells.new }
    ensures upper_bound { cells.new.at ≤ cells.old.at + count }
{
    let row = net.layout.segment_row(seg) as usize;
    for t in 0..count {
        let v = net.segment(seg + t).slope();
        cells.put_nonzero((row + t) as u32, v);
    }
}

// The pg column of generator g, whose segments come after seg others.
fn put_pg(cells: &mut Cells<'_>, net: &Network<'_>, g: usize, seg: usize)
    requires g_lt_k { (g < net.now.layout.k) × (cells.old.at < 1000000) }
    requires seg_value { seg ≡ sum g (grid net.now).segments }
    ensures puts { PutsCells (pg_cells (grid net.now) g) cells.old cells.new }
    ensures upper_bound { cells.new.at ≤ cells.old.at + 3 + (grid net.now).segments g }
{
    let l = net.layout;
    let r = net.generator(g);
    let balance = l.pbal_row(r.gen_bus() as usize);
    put_head(cells, r, balance, l.pgub_row(g), l.pglb_row(g));
    put_slopes(cells, net, seg, r.segments());
}

// The qg column of generator g.
fn put_qg(cells: &mut Cells<'_>, net: &Network<'_>, g: usize)
    requires { (g < net.now.layout.k) × (cells.old.at < 1000000) }
    ensures puts { PutsCells (qg_cells (grid net.now) g) cells.old cells.new }
    ensures upper_bound { cells.new.at ≤ cells.old.at + 3 }
{
    let l = net.layout;
    let r = net.generator(g);
    let balance = l.qbal_row(r.gen_bus() as usize);
    put_head(cells, r, balance, l.qgub_row(g), l.qglb_row(g));
}

// The pg columns.
pub fn put_pgs(starts: &mut [u32], cells: &mut Cells<'_>, net: &Network<'_>)
    requires { cells.old.at < 900000 }
    ensures columns { PutsColumns (listed net.now.layout.k (pg_cells (grid net.now))) (layout_column net.now.layout (Pg 0)) starts.old cells.old starts.new cells.new }
    ensures upper_bound { cells.new.at ≤ cells.old.at + 3 * net.now.layout.k + net.now.layout.s }
{
    let col = net.layout.pg_column(0) as usize;
    let mut seg = 0;
    for g in 0..net.layout.k {
        put_pg(cells, net, g, seg);
        cells.end_column(starts, col + g);
        seg += net.generator(g).segments();
    }
}

// The qg columns.
pub fn put_qgs(starts: &mut [u32], cells: &mut Cells<'_>, net: &Network<'_>)
    requires { cells.old.at < 900000 }
    ensures columns { PutsColumns (listed net.now.layout.k (qg_cells (grid net.now))) (layout_column net.now.layout (Qg 0)) starts.old cells.old starts.new cells.new }
    ensures upper_bound { cells.new.at ≤ cells.old.at + 3 * net.now.layout.k }
{
    let col = net.layout.qg_column(0) as usize;
    for g in 0..net.layout.k {
        put_qg(cells, net, g);
        cells.end_column(starts, col + g);
    }
}

// -1 in each of count rows from row on.
fn put_ones(cells: &mut Cells<'_>, row: usize, count: usize)
    requires { (cells.old.at < 2000000) × (count ≤ 65536) × (row < 1000000) }
    ensures puts { PutsCells (each count (ones row)) cells.old cells.new }
    ensures upper_bound { cells.new.at ≤ cells.old.at + count }
{
    for t in 0..count {
        cells.put((row + t) as u32, -1.0);
    }
}

// The cost columns: one for each piecewise generator.
pub fn put_costs(starts: &mut [u32], cells: &mut Cells<'_>, net: &Network<'_>)
    requires { cells.old.at < 900000 }
    ensures columns { PutsColumns (each net.now.layout.k (cost_turn (grid net.now))) (layout_column net.now.layout (CostOf 0)) starts.old cells.old starts.new cells.new }
    ensures upper_bound { cells.new.at ≤ cells.old.at + net.now.layout.s }
{
    let base = net.layout.segment_row(0) as usize;
    let mut c = net.layout.cost_column(0) as usize;
    let mut seg = 0;
    for g in 0..net.layout.k {
        let r = net.generator(g);
        let count = r.segments();
        if r.piecewise() {
            put_ones(cells, base + seg, count);
            cells.end_column(starts, c);
            c += 1;
        }
        seg += count;
    }
}
