// Each stores one float in the column.
// Kept: a layout in range, and i < l.n or g < l.k, no network: no function here reads a record, and a network would ask for accepted ones.
ghost use Rattle.std.specs.Prelude.{◌≡◌, [], ◌∷◌, ◌+◌, ◌<◌, get_or};
ghost use Rattle.std.specs.Float.{binary64, nan};
ghost use Rattle.std.specs.Float.Ieee.{mul};
ghost use Rattle.numbering.specs.Layout.{InRange, layout_column, layout_row};
ghost use Rattle.numbering.specs.declared.ColumnName.TheVariants.{Pg};
ghost use Rattle.rows.specs.Rows.{minus_one, constant64};
ghost use Rattle.elements.specs.Balance.{price_row};
ghost use Rattle.admittance.specs.Stores.{put, stored_all};
ghost use Rattle.admittance.specs.Places.{kkt_in};
ghost use Rattle.plain_columns.specs.Cases.{voltage_row, gen_row, dbdp, cost_slope};

use admittance::inner::stores::value;
use elements::inner::power::balance_row;
use interface::{Bound, CostTerm, Power};
use lists::inner::store;
use numbering::SocWrLayout;

// Kept: alike others by chance: a match on an enum, whose rows are its own.
fn voltage_row(l: SocWrLayout, bound: Bound, i: usize) -> u32
    requires in_range { InRange l }
    requires i_lt_n { i < l.n }
    ensures { result ≡ layout_row l (voltage_row bound i) }
{
    match bound {
        Bound::Max => l.wub_row(i),
        Bound::Min => l.wlb_row(i),
    }
}

fn gen_row(l: SocWrLayout, power: Power, bound: Bound, g: usize) -> u32
    requires in_range { InRange l }
    requires g_lt_k { g < l.k }
    ensures { result ≡ layout_row l (gen_row power bound g) }
{
    match (power, bound) {
        (Power::Active, Bound::Max) => l.pgub_row(g),
        (Power::Active, Bound::Min) => l.pglb_row(g),
        (Power::Reactive, Bound::Max) => l.qgub_row(g),
        (Power::Reactive, Bound::Min) => l.qglb_row(g),
    }
}

fn dbdp(bound: Bound) -> f64
    ensures { result ≡ dbdp bound }
{
    match bound {
        Bound::Max => 1.0,
        Bound::Min => -1.0,
    }
}

fn cost_slope(term: CostTerm, pg: f64) -> f64
    ensures { result ≡ cost_slope term pg }
{
    match term {
        CostTerm::Quadratic => 2.0 * pg,
        CostTerm::Linear => 1.0,
    }
}

pub fn demand(l: SocWrLayout, power: Power, i: usize, column: &mut [f64])
    requires in_range { InRange l }
    requires i_lt_n { i < l.n }
    ensures { column.new ≡ stored_all (put (kkt_in l (price_row power i)) (constant64 minus_one) ∷ []) column.old }
{
    let row = balance_row(l, power, i) as usize;
    store(column, l.column_count() as usize + row, -1.0);
}

// A bound's row: z times db/dp.
fn bound_at(nvar: u32, row: u32, bound: Bound, z: &[f64], column: &mut [f64])
    ensures { column.new ≡ stored_all (put (nvar + row) (mul binary64 (get_or z.now row nan) (dbdp bound)) ∷ []) column.old }
{
    let r = row as usize;
    store(column, nvar as usize + r, value(z, r) * dbdp(bound));
}

pub fn voltage_bound(l: SocWrLayout, bound: Bound, i: usize, z: &[f64], column: &mut [f64])
    requires in_range { InRange l }
    requires i_lt_n { i < l.n }
    ensures { column.new ≡ stored_all (put (kkt_in l (voltage_row bound i)) (mul binary64 (get_or z.now (layout_row l (voltage_row bound i)) nan) (dbdp bound)) ∷ []) column.old }
{
    bound_at(l.column_count(), voltage_row(l, bound, i), bound, z, column);
}

pub fn gen_bound(
    l: SocWrLayout,
    power: Power,
    bound: Bound,
    g: usize,
    z: &[f64],
    column: &mut [f64],
)
    requires in_range { InRange l }
    requires g_lt_k { g < l.k }
    ensures { column.new ≡ stored_all (put (kkt_in l (gen_row power bound g)) (mul binary64 (get_or z.now (layout_row l (gen_row power bound g)) nan) (dbdp bound)) ∷ []) column.old }
{
    bound_at(
        l.column_count(),
        gen_row(l, power, bound, g),
        bound,
        z,
        column,
    );
}

pub fn cost(l: SocWrLayout, term: CostTerm, g: usize, x: &[f64], column: &mut [f64])
    requires in_range { InRange l }
    requires g_lt_k { g < l.k }
    ensures { column.new ≡ stored_all (put (layout_column l (Pg g)) (cost_slope term (get_or x.now (layout_column l (Pg g)) nan)) ∷ []) column.old }
{
    let col = l.pg_column(g) as usize;
    store(column, col, cost_slope(term, value(x, col)));
}
