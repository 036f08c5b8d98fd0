// The coefficients of a branch's Ohm rows.
ghost use Rattle.std.specs.Prelude.{◌≡◌};
ghost use Rattle.rows.specs.Branch.{branch_of};
ghost use Rattle.rows.specs.Rows.{zero64, ohm_value, w, wr, wi};
ghost use Rattle.branch.specs.Series.{series_of};
ghost use Rattle.branch.specs.Ohm.{shunt_of, branch_with, products_of};

use crate::{ByOhmRow, Products, Series};
use records::Record;
use rows::OhmRow;

// The shunt that stands in an Ohm row of the branch: the conductance or susceptance of the row's end.
#[tactic(auto, unfolding(rows::specs::Branch::gathered, records::specs::Network::branch_data_of))]
pub fn shunt(q: OhmRow, r: Record<'_>) -> f64
    ensures { result ≡ shunt_of (branch_of r.entry.bytes.now r.entry.r) q }
{
    match q {
        OhmRow::Pf => r.g_fr(),
        OhmRow::Qf => r.b_fr(),
        OhmRow::Pt => r.g_to(),
        OhmRow::Qt => r.b_to(),
    }
}

// The coefficient of the row's w, whose end has the shunt.
#[tactic(auto, unfolding(rows::specs::Rows::ohm_value))]
pub fn w_value(q: OhmRow, t: Series, shunt: f64) -> f64
    ensures { result ≡ ohm_value (branch_with t shunt) q w }
{
    match q {
        OhmRow::Pf => -(t.g + shunt) / t.tm2,
        OhmRow::Qf => (t.b + shunt) / t.tm2,
        OhmRow::Pt => -(t.g + shunt),
        OhmRow::Qt => t.b + shunt,
    }
}

// That of w, where t is the branch of the record.
#[tactic(auto, using(crate::proofs::Coefficients::w_of))]
pub fn w_at(q: OhmRow, t: Series, r: Record<'_>) -> f64
    requires { t ≡ series_of (branch_of r.bytes.now r.r) }
    ensures { result ≡ ohm_value (branch_of r.entry.bytes.now r.entry.r) q w }
{
    w_value(q, t, shunt(q, r))
}

// Those of wr and wi.
#[tactic(auto, unfolding(rows::specs::Rows::ohm_value))]
pub fn wr_value(q: OhmRow, t: Series) -> f64
    ensures { result ≡ ohm_value (branch_with t zero64) q wr }
{
    match q {
        OhmRow::Pf => -(-t.g * t.tr + t.b * t.ti) / t.tm2,
        OhmRow::Qf => (-t.b * t.tr - t.g * t.ti) / t.tm2,
        OhmRow::Pt => -(-t.g * t.tr - t.b * t.ti) / t.tm2,
        OhmRow::Qt => (-t.b * t.tr + t.g * t.ti) / t.tm2,
    }
}

#[tactic(auto, unfolding(rows::specs::Rows::ohm_value))]
pub fn wi_value(q: OhmRow, t: Series) -> f64
    ensures { result ≡ ohm_value (branch_with t zero64) q wi }
{
    match q {
        OhmRow::Pf => -(-t.b * t.tr - t.g * t.ti) / t.tm2,
        OhmRow::Qf => -(-t.g * t.tr + t.b * t.ti) / t.tm2,
        OhmRow::Pt => (-t.b * t.tr + t.g * t.ti) / t.tm2,
        OhmRow::Qt => (-t.g * t.tr - t.b * t.ti) / t.tm2,
    }
}

// The coefficients of wr and of wi in the four Ohm rows.
// Kept: one function would take wr_value or wi_value as a closure, and promise what the closure does; each call would name it.
pub fn wr_products(t: Series) -> Products
    ensures { result ≡ products_of (branch_with t zero64) wr }
{
    ByOhmRow {
        pf: wr_value(OhmRow::Pf, t),
        qf: wr_value(OhmRow::Qf, t),
        pt: wr_value(OhmRow::Pt, t),
        qt: wr_value(OhmRow::Qt, t),
    }
}

pub fn wi_products(t: Series) -> Products
    ensures { result ≡ products_of (branch_with t zero64) wi }
{
    ByOhmRow {
        pf: wi_value(OhmRow::Pf, t),
        qf: wi_value(OhmRow::Qf, t),
        pt: wi_value(OhmRow::Pt, t),
        qt: wi_value(OhmRow::Qt, t),
    }
}
