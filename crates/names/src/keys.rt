// Names as keys of block, record and place, and back.
// Kept: a block is a number in what follows, as in numbering::inner::blocks, and columns and rows have a function each, as in numbering::inner.
// Kept: column_key and row_key are functions: `From` for Key must stand with its type, in numbering, and would prove there 27 matches that it never uses.
ghost use Rattle.std.specs.Prelude.{◌<◌};
ghost use Rattle.numbering.specs.Blocks.{key};
ghost use Rattle.numbering.specs.Numbering.{column_key, row_key, cost_columns, cost_rows, SameKey};

use numbering::inner::blocks;
use numbering::{ColumnName, Key, RowName};

fn keyed(block: usize, item: usize, place: usize) -> Key
    ensures { SameKey result (key block item place) }
{
    Key { block, item, place }
}

pub fn column_key(name: ColumnName) -> Key
    ensures { SameKey result (column_key name) }
{
    match name {
        ColumnName::Pg(i) => keyed(blocks::PG, i, 0),
        ColumnName::Qg(i) => keyed(blocks::QG, i, 0),
        ColumnName::W(i) => keyed(blocks::W, i, 0),
        ColumnName::Wr(i) => keyed(blocks::WR, i, 0),
        ColumnName::Wi(i) => keyed(blocks::WI, i, 0),
        ColumnName::Pf(i) => keyed(blocks::PF, i, 0),
        ColumnName::Pt(i) => keyed(blocks::PT, i, 0),
        ColumnName::Qf(i) => keyed(blocks::QF, i, 0),
        ColumnName::Qt(i) => keyed(blocks::QT, i, 0),
        ColumnName::CostOf(i) => keyed(blocks::COST, i, 0),
    }
}

pub fn row_key(name: RowName) -> Key
    ensures { SameKey result (row_key name) }
{
    match name {
        RowName::Pbal(i) => keyed(blocks::PBAL, i, 0),
        RowName::Qbal(i) => keyed(blocks::QBAL, i, 0),
        RowName::OhmPf(i) => keyed(blocks::OHM_PF, i, 0),
        RowName::OhmQf(i) => keyed(blocks::OHM_QF, i, 0),
        RowName::OhmPt(i) => keyed(blocks::OHM_PT, i, 0),
        RowName::OhmQt(i) => keyed(blocks::OHM_QT, i, 0),
        RowName::Wub(i) => keyed(blocks::WUB, i, 0),
        RowName::Wlb(i) => keyed(blocks::WLB, i, 0),
        RowName::Pgub(i) => keyed(blocks::PGUB, i, 0),
        RowName::Pglb(i) => keyed(blocks::PGLB, i, 0),
        RowName::Qgub(i) => keyed(blocks::QGUB, i, 0),
        RowName::Qglb(i) => keyed(blocks::QGLB, i, 0),
        RowName::Angub(i) => keyed(blocks::ANGUB, i, 0),
        RowName::Anglb(i) => keyed(blocks::ANGLB, i, 0),
        RowName::Segment(i, q) => keyed(blocks::SEGMENT, i, q),
        RowName::Jabr(i, q) => keyed(blocks::JABR, i, q),
        RowName::Thermal(i, q) => keyed(blocks::THERMAL, i, q),
    }
}

// The column, and the row, of record i of a block whose records have one each.
pub(crate) fn plain_column(block: usize, i: usize) -> ColumnName
    requires { block < cost_columns }
    ensures { SameKey (column_key result) (key block i 0) }
{
    let names = [
        ColumnName::Pg(i),
        ColumnName::Qg(i),
        ColumnName::W(i),
        ColumnName::Wr(i),
        ColumnName::Wi(i),
        ColumnName::Pf(i),
        ColumnName::Pt(i),
        ColumnName::Qf(i),
        ColumnName::Qt(i),
    ];
    names[block]
}

pub(crate) fn plain_row(block: usize, i: usize) -> RowName
    requires { block < cost_rows }
    ensures { SameKey (row_key result) (key block i 0) }
{
    let names = [
        RowName::Pbal(i),
        RowName::Qbal(i),
        RowName::OhmPf(i),
        RowName::OhmQf(i),
        RowName::OhmPt(i),
        RowName::OhmQt(i),
        RowName::Wub(i),
        RowName::Wlb(i),
        RowName::Pgub(i),
        RowName::Pglb(i),
        RowName::Qgub(i),
        RowName::Qglb(i),
        RowName::Angub(i),
        RowName::Anglb(i),
    ];
    names[block]
}
