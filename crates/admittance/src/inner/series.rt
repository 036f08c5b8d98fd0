// The column of a branch's series conductance or susceptance.
ghost use Rattle.std.specs.Prelude.{◌≡◌, ◌<◌};
ghost use Rattle.numbering.specs.Network.{grid};
ghost use Rattle.admittance.specs.Stores.{stored_all};
ghost use Rattle.admittance.specs.Admittance.{series_stores};
ghost use Rattle.admittance.specs.Places.{RowsAre, ColumnsAre, series_entries, landed_all};

use crate::Entry;
use crate::inner::stores::land;
use branch::inner::places::{from_bus, to_bus};
use branch::inner::series;
use branch::{ByOhmRow, Series};
use interface::GB;
use numbering::Network;

// The numbers of a branch's Ohm rows.
pub type OhmRows = ByOhmRow<u32>;

// Those of their columns but the flows'.
#[derive(Clone, Copy)]
pub struct OhmColumns {
    pub from: u32,
    pub to: u32,
    pub wr: u32,
    pub wi: u32,
}

fn ohm_rows(net: &Network<'_>, e: usize) -> OhmRows
    requires { e < net.now.layout.m }
    ensures { RowsAre net.now.layout e result }
{
    let l = net.layout;
    ByOhmRow {
        pf: l.ohm_pf_row(e),
        qf: l.ohm_qf_row(e),
        pt: l.ohm_pt_row(e),
        qt: l.ohm_qt_row(e),
    }
}

fn ohm_columns(net: &Network<'_>, e: usize) -> OhmColumns
    requires { e < net.now.layout.m }
    ensures { ColumnsAre net.now.layout ((grid net.now).from e) ((grid net.now).to e) e result }
{
    let l = net.layout;
    OhmColumns {
        from: l.w_column(from_bus(net, e)),
        to: l.w_column(to_bus(net, e)),
        wr: l.wr_column(e),
        wi: l.wi_column(e),
    }
}

fn conductance(r: OhmRows, c: OhmColumns, t: Series) -> [Entry; 10]
    ensures { result ≡ series_entries r c t GB.Conductance }
{
    [
        Entry(r.pf, c.from, -1.0 / t.tm2),
        Entry(r.pf, c.wr, t.tr / t.tm2),
        Entry(r.pf, c.wi, t.ti / t.tm2),
        Entry(r.qf, c.wr, -t.ti / t.tm2),
        Entry(r.qf, c.wi, t.tr / t.tm2),
        Entry(r.pt, c.to, -1.0),
        Entry(r.pt, c.wr, t.tr / t.tm2),
        Entry(r.pt, c.wi, t.ti / t.tm2),
        Entry(r.qt, c.wr, t.ti / t.tm2),
        Entry(r.qt, c.wi, -t.tr / t.tm2),
    ]
}

fn susceptance(r: OhmRows, c: OhmColumns, t: Series) -> [Entry; 10]
    ensures { result ≡ series_entries r c t GB.Susceptance }
{
    [
        Entry(r.pf, c.wr, -t.ti / t.tm2),
        Entry(r.pf, c.wi, t.tr / t.tm2),
        Entry(r.qf, c.from, 1.0 / t.tm2),
        Entry(r.qf, c.wr, -t.tr / t.tm2),
        Entry(r.qf, c.wi, -t.ti / t.tm2),
        Entry(r.pt, c.wr, t.ti / t.tm2),
        Entry(r.pt, c.wi, -t.tr / t.tm2),
        Entry(r.qt, c.to, 1.0),
        Entry(r.qt, c.wr, -t.tr / t.tm2),
        Entry(r.qt, c.wi, -t.ti / t.tm2),
    ]
}

fn entries(r: OhmRows, c: OhmColumns, t: Series, gb: GB) -> [Entry; 10]
    ensures { result ≡ series_entries r c t gb }
{
    match gb {
        GB::Conductance => conductance(r, c, t),
        GB::Susceptance => susceptance(r, c, t),
    }
}

// Kept: x and z beside nvar, no point and no struct: they may have any length here, and go on to `land` as they came.
fn land_all(column: &mut [f64], nvar: u32, es: [Entry; 10], x: &[f64], z: &[f64])
    ensures { column.new ≡ stored_all (landed_all x.now z.now nvar es) column.old }
{
    for e in &es {
        land(column, nvar, *e, x, z);
    }
}

// Kept: x and z beside the network, no point: they may have any length here, those of a point have the network's lengths.
pub fn series_admittance(
    net: &Network<'_>,
    gb: GB,
    e: usize,
    x: &[f64],
    z: &[f64],
    column: &mut [f64],
)
    requires { e < net.now.layout.m }
    ensures { column.new ≡ stored_all (series_stores (grid net.now) x.now z.now gb e) column.old }
{
    let rows = ohm_rows(net, e);
    let es = entries(rows, ohm_columns(net, e), series(net.branch(e)), gb);
    land_all(column, net.layout.column_count(), es, x, z);
}
