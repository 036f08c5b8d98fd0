// The blocks by number and length, where a block starts, and the block of a point.
ghost use Rattle.std.specs.Prelude.{◌≡◌, ℕ, ◌+◌, ◌*◌, ◌≤◌, ◌<◌, length, get_or};
ghost use Rattle.numbering.specs.Numbering.{row_many};
ghost use Rattle.numbering.specs.Layout.{InRange, layout_columns, layout_rows, sizes_of, start_in, InBlock};

use crate::{Place, SocWrLayout};

// Kept: a block is a number, its place in a table of sizes and what C hands over; an enum would be turned back to it at each use.
// The blocks of columns, and of rows, in their order.
pub const PG: usize = 0;

pub const QG: usize = 1;

pub const W: usize = 2;

pub const WR: usize = 3;

pub const WI: usize = 4;

pub const PF: usize = 5;

pub const PT: usize = 6;

pub const QF: usize = 7;

pub const QT: usize = 8;

pub const COST: usize = 9;

pub const COLUMN_BLOCKS: usize = 10;

pub const PBAL: usize = 0;

pub const QBAL: usize = 1;

pub const OHM_PF: usize = 2;

pub const OHM_QF: usize = 3;

pub const OHM_PT: usize = 4;

pub const OHM_QT: usize = 5;

pub const WUB: usize = 6;

pub const WLB: usize = 7;

pub const PGUB: usize = 8;

pub const PGLB: usize = 9;

pub const QGUB: usize = 10;

pub const QGLB: usize = 11;

pub const ANGUB: usize = 12;

pub const ANGLB: usize = 13;

pub const SEGMENT: usize = 14;

pub const JABR: usize = 15;

pub const THERMAL: usize = 16;

pub const ROW_BLOCKS: usize = 17;

// The rows of a branch in jabr, and of a limited branch in thermal.
pub const JABR_ROWS: usize = 4;

pub const THERMAL_ROWS: usize = 6;

pub type ColumnSizes = [usize; COLUMN_BLOCKS];

pub type RowSizes = [usize; ROW_BLOCKS];

pub fn column_sizes(l: SocWrLayout) -> ColumnSizes
    ensures { result ≡ sizes_of (layout_columns l) }
{
    [l.k, l.k, l.n, l.m, l.m, l.m, l.m, l.m, l.m, l.cost_columns]
}

// Kept: a layout in range is asked alone, as at the layout's methods: there are no records here.
pub fn row_sizes(l: SocWrLayout) -> RowSizes
    requires { InRange l }
    ensures { result ≡ sizes_of (layout_rows l) }
{
    [
        l.n,
        l.n,
        l.m,
        l.m,
        l.m,
        l.m,
        l.n,
        l.n,
        l.k,
        l.k,
        l.k,
        l.k,
        l.m,
        l.m,
        l.s,
        JABR_ROWS * l.m,
        THERMAL_ROWS * l.t,
    ]
}

// Where a block starts, given the blocks' lengths.
pub fn start_of(sizes: &[usize], block: usize) -> usize
    requires block_in_bounds { (block ≤ length sizes.now) × (length sizes.now ≤ row_many) }
    requires by_index { (j : ℕ) → get_or sizes.now j 0 ≤ 65536 }
    ensures value { result ≡ start_in sizes.now block }
    ensures upper_bound { result ≤ 65536 * row_many }
{
    let mut start = 0;
    for size in &sizes[..block] {
        start += *size;
    }
    start
}

// The block that point p is in, and its place there.
pub fn block_of(sizes: &[usize], p: usize) -> Place
    requires { p < start_in sizes.now (length sizes.now) }
    ensures in_block { InBlock sizes.now p result }
    ensures item_in_bounds { result.item < length sizes.now }
{
    let mut rest = p;
    for (item, size) in sizes.iter().enumerate() {
        if rest < *size {
            return Place { item, at: rest };
        }
        rest -= *size;
    }
    unreachable!()
}
