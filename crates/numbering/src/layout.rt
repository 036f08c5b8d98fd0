// The layout's methods: each tests the layout handed in, and then the index.
// Kept: document 01 has a method for each column and row, each one call with its block's number (why a number: inner/blocks.rt).
ghost use Rattle.std.specs.Prelude.{◌≡◌, ◌<◌};
ghost use Rattle.refusals.specs.Refusals.{answer_if};
ghost use Rattle.records.specs.Case.{case_check};
ghost use Rattle.numbering.specs.Blocks.{key};
ghost use Rattle.numbering.specs.Numbering.{cost_columns, cost_rows};
ghost use Rattle.numbering.specs.Layout.{layout_cause, layout_columns, layout_rows, layout_row, n_eq_of, n_ineq_of, nvar_of, ncon_of};
ghost use Rattle.numbering.specs.Lookups.{in_layout, column_in, row_in, size_in, new_layout, checked_layout};
ghost use Rattle.numbering.specs.declared.ColumnName.TheVariants.{Pg, Qg, W, Wr, Wi, Pf, Pt, Qf, Qt};
ghost use Rattle.numbering.specs.declared.RowName.TheVariants.{Pbal, Qbal, OhmPf, OhmQf, OhmPt, OhmQt, Wub, Wlb, Pgub, Pglb, Qgub, Qglb, Angub, Anglb, Jabr};

use crate::inner::blocks;
use crate::{CheckedLayout, SocWrLayout};
use records::Case;
use refusals::{Refusal, refuse_unless};

// The record check and the layout by one pass over the records, with the limited branches before branch e.
pub fn check_layout(case: Case<'_>, e: usize) -> Result<CheckedLayout, Refusal>
    ensures { result ≡ answer_if (case_check case.entry) (checked_layout case.entry.n case.entry.m case.entry.k case.entry.s case.entry.bytes.now e) }
{
    let counted = record_check::check_counting(case, e)?;
    Ok(CheckedLayout {
        layout: SocWrLayout {
            n: case.n,
            m: case.m,
            k: case.k,
            s: case.s,
            t: counted.t,
            cost_columns: counted.cost_columns,
        },
        before: counted.before,
    })
}

impl SocWrLayout {
    // The layout of a case.
    pub fn new(case: Case<'_>) -> Result<SocWrLayout, Refusal>
        ensures { result ≡ new_layout case.entry.n case.entry.m case.entry.k case.entry.s case.entry.bytes.now }
    {
        Ok(check_layout(case, 0)?.layout)
    }

    // 1: the first of n, m, k, S, T, cost columns that is too large.
    pub fn cause(self) -> Result<(), Refusal>
        ensures { result ≡ layout_cause self }
    {
        record_check::count_cause(self.n, self.m, self.k, self.s)?;
        refuse_unless(self.t <= self.m, Refusal::CountTooLarge(4))?;
        refuse_unless(self.cost_columns <= self.k, Refusal::CountTooLarge(5))
    }

    // Kept: columns and rows have a function each; a trait over both would have these functions again, with laws to prove.
    // A column of a block whose records have one column each.
    fn plain_column(self, block: usize, i: usize) -> Result<u32, Refusal>
        requires { block < cost_columns }
        ensures { result ≡ in_layout self (layout_columns self) (key block i 0) }
    {
        self.cause()?;
        let sizes = blocks::column_sizes(self);
        refuse_unless(i < sizes[block], Refusal::PastEnd(i as u64))?;
        Ok(self.column_at(block, i))
    }

    // A row of a block whose records have one row each.
    fn plain_row(self, block: usize, i: usize) -> Result<u32, Refusal>
        requires { block < cost_rows }
        ensures { result ≡ in_layout self (layout_rows self) (key block i 0) }
    {
        self.cause()?;
        let sizes = blocks::row_sizes(self);
        refuse_unless(i < sizes[block], Refusal::PastEnd(i as u64))?;
        Ok(self.row_at(block, i))
    }

    pub fn col_pg(self, g: usize) -> Result<u32, Refusal>
        ensures { result ≡ column_in self (Pg g) }
    {
        self.plain_column(blocks::PG, g)
    }

    pub fn col_qg(self, g: usize) -> Result<u32, Refusal>
        ensures { result ≡ column_in self (Qg g) }
    {
        self.plain_column(blocks::QG, g)
    }

    pub fn col_w(self, i: usize) -> Result<u32, Refusal>
        ensures { result ≡ column_in self (W i) }
    {
        self.plain_column(blocks::W, i)
    }

    pub fn col_wr(self, e: usize) -> Result<u32, Refusal>
        ensures { result ≡ column_in self (Wr e) }
    {
        self.plain_column(blocks::WR, e)
    }

    pub fn col_wi(self, e: usize) -> Result<u32, Refusal>
        ensures { result ≡ column_in self (Wi e) }
    {
        self.plain_column(blocks::WI, e)
    }

    pub fn col_pf(self, e: usize) -> Result<u32, Refusal>
        ensures { result ≡ column_in self (Pf e) }
    {
        self.plain_column(blocks::PF, e)
    }

    pub fn col_pt(self, e: usize) -> Result<u32, Refusal>
        ensures { result ≡ column_in self (Pt e) }
    {
        self.plain_column(blocks::PT, e)
    }

    pub fn col_qf(self, e: usize) -> Result<u32, Refusal>
        ensures { result ≡ column_in self (Qf e) }
    {
        self.plain_column(blocks::QF, e)
    }

    pub fn col_qt(self, e: usize) -> Result<u32, Refusal>
        ensures { result ≡ column_in self (Qt e) }
    {
        self.plain_column(blocks::QT, e)
    }

    pub fn r_pbal(self, i: usize) -> Result<u32, Refusal>
        ensures { result ≡ row_in self (Pbal i) }
    {
        self.plain_row(blocks::PBAL, i)
    }

    pub fn r_qbal(self, i: usize) -> Result<u32, Refusal>
        ensures { result ≡ row_in self (Qbal i) }
    {
        self.plain_row(blocks::QBAL, i)
    }

    pub fn r_ohm_pf(self, e: usize) -> Result<u32, Refusal>
        ensures { result ≡ row_in self (OhmPf e) }
    {
        self.plain_row(blocks::OHM_PF, e)
    }

    pub fn r_ohm_qf(self, e: usize) -> Result<u32, Refusal>
        ensures { result ≡ row_in self (OhmQf e) }
    {
        self.plain_row(blocks::OHM_QF, e)
    }

    pub fn r_ohm_pt(self, e: usize) -> Result<u32, Refusal>
        ensures { result ≡ row_in self (OhmPt e) }
    {
        self.plain_row(blocks::OHM_PT, e)
    }

    pub fn r_ohm_qt(self, e: usize) -> Result<u32, Refusal>
        ensures { result ≡ row_in self (OhmQt e) }
    {
        self.plain_row(blocks::OHM_QT, e)
    }

    pub fn r_wub(self, i: usize) -> Result<u32, Refusal>
        ensures { result ≡ row_in self (Wub i) }
    {
        self.plain_row(blocks::WUB, i)
    }

    pub fn r_wlb(self, i: usize) -> Result<u32, Refusal>
        ensures { result ≡ row_in self (Wlb i) }
    {
        self.plain_row(blocks::WLB, i)
    }

    pub fn r_pgub(self, g: usize) -> Result<u32, Refusal>
        ensures { result ≡ row_in self (Pgub g) }
    {
        self.plain_row(blocks::PGUB, g)
    }

    pub fn r_pglb(self, g: usize) -> Result<u32, Refusal>
        ensures { result ≡ row_in self (Pglb g) }
    {
        self.plain_row(blocks::PGLB, g)
    }

    pub fn r_qgub(self, g: usize) -> Result<u32, Refusal>
        ensures { result ≡ row_in self (Qgub g) }
    {
        self.plain_row(blocks::QGUB, g)
    }

    pub fn r_qglb(self, g: usize) -> Result<u32, Refusal>
        ensures { result ≡ row_in self (Qglb g) }
    {
        self.plain_row(blocks::QGLB, g)
    }

    pub fn r_angub(self, e: usize) -> Result<u32, Refusal>
        ensures { result ≡ row_in self (Angub e) }
    {
        self.plain_row(blocks::ANGUB, e)
    }

    pub fn r_anglb(self, e: usize) -> Result<u32, Refusal>
        ensures { result ≡ row_in self (Anglb e) }
    {
        self.plain_row(blocks::ANGLB, e)
    }

    // The first of a branch's four rows.
    pub fn r_jabr(self, e: usize) -> Result<u32, Refusal>
        ensures { result ≡ row_in self (Jabr e 0) }
    {
        self.cause()?;
        refuse_unless(e < self.m, Refusal::PastEnd(e as u64))?;
        Ok(self.jabr_row(e, 0))
    }

    // The rows of the zero cone, and of the nonnegative cone.
    pub fn n_eq(self) -> Result<u32, Refusal>
        ensures { result ≡ size_in self (n_eq_of self) }
    {
        self.cause()?;
        Ok(self.zero_rows())
    }

    pub fn n_ineq(self) -> Result<u32, Refusal>
        ensures { result ≡ size_in self (n_ineq_of self) }
    {
        self.cause()?;
        Ok(self.nonnegative_rows())
    }

    // The columns, and the rows.
    pub fn nvar(self) -> Result<u32, Refusal>
        ensures { result ≡ size_in self (nvar_of self) }
    {
        self.cause()?;
        Ok(self.column_count())
    }

    pub fn ncon(self) -> Result<u32, Refusal>
        ensures { result ≡ size_in self (ncon_of self) }
    {
        self.cause()?;
        Ok(self.row_count())
    }

    // The first row of the second-order cones.
    pub fn soc_base(self) -> Result<u32, Refusal>
        ensures { result ≡ size_in self (layout_row self (Jabr 0 0)) }
    {
        self.cause()?;
        Ok(self.jabr_row(0, 0))
    }
}
