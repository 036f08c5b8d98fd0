// The layout's methods that rely on a layout in range: where a block starts, and the number of each kind of name.
// An index may be the count itself: that number is where the block ends.
// Kept: each asks `InRange`, as a layout is a plain struct that callers fill and `cause` tests: a type for those in range would be a second layout.
// Kept: each asks its index's bound (e ≤ self.m and the like) as one clause: a type for an index would be taken apart in each definition.
// Kept: document 01 has a method for each column and row, each one call with its block's number (why a number: blocks.rt).
// Kept: columns and rows have a function each; a trait over both would have these functions again, with laws to prove.
use crate::SocWrLayout;

pub mod blocks;
pub mod network;
pub mod tally;

ghost use Rattle.std.specs.Prelude.{◌≡◌, ◌+◌, ◌*◌, ◌≤◌, ◌<◌};
ghost use Rattle.numbering.specs.Blocks.{key, size, block_at, before, number_of};
ghost use Rattle.numbering.specs.Numbering.{column_many, row_many, jabr_rows};
ghost use Rattle.numbering.specs.Layout.{InRange, layout_columns, layout_rows, layout_column, layout_row, n_eq_of, n_ineq_of, nvar_of, ncon_of};
ghost use Rattle.numbering.specs.declared.ColumnName.TheVariants.{Pg, Qg, W, Wr, Wi, Pf, Pt, Qf, Qt, CostOf};
ghost use Rattle.numbering.specs.declared.RowName.TheVariants.{Pbal, Qbal, OhmPf, OhmQf, OhmPt, OhmQt, Wub, Wlb, Pgub, Pglb, Qgub, Qglb, Angub, Anglb, Segment, Jabr, Thermal};

impl SocWrLayout {
    // A block's first column, and its first row: the lengths of the blocks before it.
    fn column_start(self, block: usize) -> u32
        requires in_range { InRange self }
        requires block_le_column_many { block ≤ column_many }
        ensures value { result ≡ before (layout_columns self) block }
        ensures upper_bound { result ≤ 65536 * row_many }
    {
        let sizes = blocks::column_sizes(self);
        blocks::start_of(&sizes, block) as u32
    }

    pub fn row_start(self, block: usize) -> u32
        requires in_range { InRange self }
        requires block_le_row_many { block ≤ row_many }
        ensures value { result ≡ before (layout_rows self) block }
        ensures upper_bound { result ≤ 65536 * row_many }
    {
        let sizes = blocks::row_sizes(self);
        blocks::start_of(&sizes, block) as u32
    }

    // How many rows a block has.
    pub fn row_size(self, block: usize) -> u32
        requires in_range { InRange self }
        requires block_lt_row_many { block < row_many }
        ensures { result ≡ size (block_at (layout_rows self) block) }
    {
        let sizes = blocks::row_sizes(self);
        sizes[block] as u32
    }

    // Column i of a block; and row i of a block whose records have one row each.
    pub fn column_at(self, block: usize, i: usize) -> u32
        requires in_range { InRange self }
        requires block_lt_column_many { (block < column_many) × (i ≤ 65536) }
        ensures { result ≡ number_of (layout_columns self) (key block i 0) }
    {
        self.column_start(block) + i as u32
    }

    pub fn row_at(self, block: usize, i: usize) -> u32
        requires in_range { InRange self }
        requires block_lt_jabr_rows { (block < jabr_rows) × (i ≤ 65536) }
        ensures { result ≡ number_of (layout_rows self) (key block i 0) }
    {
        self.row_start(block) + i as u32
    }

    // The columns, and the rows.
    pub fn column_count(self) -> u32
        requires { InRange self }
        ensures { result ≡ nvar_of self }
    {
        self.column_start(blocks::COLUMN_BLOCKS)
    }

    pub fn row_count(self) -> u32
        requires { InRange self }
        ensures { result ≡ ncon_of self }
    {
        self.row_start(blocks::ROW_BLOCKS)
    }

    // The rows of the zero cone, and of the nonnegative cone.
    pub fn zero_rows(self) -> u32
        requires { InRange self }
        ensures { result ≡ n_eq_of self }
    {
        (2 * self.n + 4 * self.m) as u32
    }

    pub fn nonnegative_rows(self) -> u32
        requires { InRange self }
        ensures { result ≡ n_ineq_of self }
    {
        (2 * self.n + 4 * self.k + 2 * self.m + self.s) as u32
    }

    pub fn pg_column(self, g: usize) -> u32
        requires in_range { InRange self }
        requires g_le_k { g ≤ self.k }
        ensures { result ≡ layout_column self (Pg g) }
    {
        self.column_at(blocks::PG, g)
    }

    pub fn qg_column(self, g: usize) -> u32
        requires in_range { InRange self }
        requires g_le_k { g ≤ self.k }
        ensures { result ≡ layout_column self (Qg g) }
    {
        self.column_at(blocks::QG, g)
    }

    pub fn w_column(self, i: usize) -> u32
        requires in_range { InRange self }
        requires i_le_n { i ≤ self.n }
        ensures { result ≡ layout_column self (W i) }
    {
        self.column_at(blocks::W, i)
    }

    pub fn wr_column(self, e: usize) -> u32
        requires in_range { InRange self }
        requires e_le_m { e ≤ self.m }
        ensures { result ≡ layout_column self (Wr e) }
    {
        self.column_at(blocks::WR, e)
    }

    pub fn wi_column(self, e: usize) -> u32
        requires in_range { InRange self }
        requires e_le_m { e ≤ self.m }
        ensures { result ≡ layout_column self (Wi e) }
    {
        self.column_at(blocks::WI, e)
    }

    pub fn pf_column(self, e: usize) -> u32
        requires in_range { InRange self }
        requires e_le_m { e ≤ self.m }
        ensures { result ≡ layout_column self (Pf e) }
    {
        self.column_at(blocks::PF, e)
    }

    pub fn pt_column(self, e: usize) -> u32
        requires in_range { InRange self }
        requires e_le_m { e ≤ self.m }
        ensures { result ≡ layout_column self (Pt e) }
    {
        self.column_at(blocks::PT, e)
    }

    pub fn qf_column(self, e: usize) -> u32
        requires in_range { InRange self }
        requires e_le_m { e ≤ self.m }
        ensures { result ≡ layout_column self (Qf e) }
    {
        self.column_at(blocks::QF, e)
    }

    pub fn qt_column(self, e: usize) -> u32
        requires in_range { InRange self }
        requires e_le_m { e ≤ self.m }
        ensures { result ≡ layout_column self (Qt e) }
    {
        self.column_at(blocks::QT, e)
    }

    // The cost column that has so many before it.
    pub fn cost_column(self, rank: usize) -> u32
        requires in_range { InRange self }
        requires rank_bound { rank ≤ self.cost_columns }
        ensures { result ≡ layout_column self (CostOf rank) }
    {
        self.column_at(blocks::COST, rank)
    }

    pub fn pbal_row(self, i: usize) -> u32
        requires in_range { InRange self }
        requires i_le_n { i ≤ self.n }
        ensures { result ≡ layout_row self (Pbal i) }
    {
        self.row_at(blocks::PBAL, i)
    }

    pub fn qbal_row(self, i: usize) -> u32
        requires in_range { InRange self }
        requires i_le_n { i ≤ self.n }
        ensures { result ≡ layout_row self (Qbal i) }
    {
        self.row_at(blocks::QBAL, i)
    }

    pub fn ohm_pf_row(self, e: usize) -> u32
        requires in_range { InRange self }
        requires e_le_m { e ≤ self.m }
        ensures { result ≡ layout_row self (OhmPf e) }
    {
        self.row_at(blocks::OHM_PF, e)
    }

    pub fn ohm_qf_row(self, e: usize) -> u32
        requires in_range { InRange self }
        requires e_le_m { e ≤ self.m }
        ensures { result ≡ layout_row self (OhmQf e) }
    {
        self.row_at(blocks::OHM_QF, e)
    }

    pub fn ohm_pt_row(self, e: usize) -> u32
        requires in_range { InRange self }
        requires e_le_m { e ≤ self.m }
        ensures { result ≡ layout_row self (OhmPt e) }
    {
        self.row_at(blocks::OHM_PT, e)
    }

    pub fn ohm_qt_row(self, e: usize) -> u32
        requires in_range { InRange self }
        requires e_le_m { e ≤ self.m }
        ensures { result ≡ layout_row self (OhmQt e) }
    {
        self.row_at(blocks::OHM_QT, e)
    }

    pub fn wub_row(self, i: usize) -> u32
        requires in_range { InRange self }
        requires i_le_n { i ≤ self.n }
        ensures { result ≡ layout_row self (Wub i) }
    {
        self.row_at(blocks::WUB, i)
    }

    pub fn wlb_row(self, i: usize) -> u32
        requires in_range { InRange self }
        requires i_le_n { i ≤ self.n }
        ensures { result ≡ layout_row self (Wlb i) }
    {
        self.row_at(blocks::WLB, i)
    }

    pub fn pgub_row(self, g: usize) -> u32
        requires in_range { InRange self }
        requires g_le_k { g ≤ self.k }
        ensures { result ≡ layout_row self (Pgub g) }
    {
        self.row_at(blocks::PGUB, g)
    }

    pub fn pglb_row(self, g: usize) -> u32
        requires in_range { InRange self }
        requires g_le_k { g ≤ self.k }
        ensures { result ≡ layout_row self (Pglb g) }
    {
        self.row_at(blocks::PGLB, g)
    }

    pub fn qgub_row(self, g: usize) -> u32
        requires in_range { InRange self }
        requires g_le_k { g ≤ self.k }
        ensures { result ≡ layout_row self (Qgub g) }
    {
        self.row_at(blocks::QGUB, g)
    }

    pub fn qglb_row(self, g: usize) -> u32
        requires in_range { InRange self }
        requires g_le_k { g ≤ self.k }
        ensures { result ≡ layout_row self (Qglb g) }
    {
        self.row_at(blocks::QGLB, g)
    }

    pub fn angub_row(self, e: usize) -> u32
        requires in_range { InRange self }
        requires e_le_m { e ≤ self.m }
        ensures { result ≡ layout_row self (Angub e) }
    {
        self.row_at(blocks::ANGUB, e)
    }

    pub fn anglb_row(self, e: usize) -> u32
        requires in_range { InRange self }
        requires e_le_m { e ≤ self.m }
        ensures { result ≡ layout_row self (Anglb e) }
    {
        self.row_at(blocks::ANGLB, e)
    }

    // The row of the segment that has so many before it, those of its own generator included.
    pub fn segment_row(self, position: usize) -> u32
        requires in_range { InRange self }
        requires position_le_s { position ≤ self.s }
        ensures { result ≡ layout_row self (Segment position 0) }
    {
        self.row_at(blocks::SEGMENT, position)
    }

    // A row of a branch's cone of four.
    pub fn jabr_row(self, e: usize, place: usize) -> u32
        requires in_range { InRange self }
        requires e_le_m { (e ≤ self.m) × (place < 4) }
        ensures { result ≡ layout_row self (Jabr e place) }
    {
        self.row_start(blocks::JABR) + (blocks::JABR_ROWS * e + place) as u32
    }

    // A row of the two cones of three of the limited branch that has so many before it.
    pub fn thermal_row(self, rank: usize, place: usize) -> u32
        requires in_range { InRange self }
        requires rank_le_t { (rank ≤ self.t) × (place < 6) }
        ensures { result ≡ layout_row self (Thermal rank place) }
    {
        self.row_start(blocks::THERMAL) + (blocks::THERMAL_ROWS * rank + place) as u32
    }
}
