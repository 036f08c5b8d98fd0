// Stores to a column, and reads of x and z, that pass over what lies past the end.
ghost use Rattle.std.specs.Prelude.{◌≡◌, [], ◌∷◌, ◌+◌, get_or, set};
ghost use Rattle.std.specs.Float.{binary64, nan};
ghost use Rattle.std.specs.Float.Ieee.{add, mul};
ghost use Rattle.admittance.specs.Stores.{stored_all};
ghost use Rattle.admittance.specs.Places.{landed_at};

use crate::Entry;

// x[at].
pub fn value(x: &[f64], at: usize) -> f64
    ensures { result ≡ get_or x.now at nan }
{
    x.get(at).copied().unwrap_or(f64::NAN)
}

// column[at] += v.
pub fn add(column: &mut [f64], at: usize, v: f64)
    ensures { column.new ≡ set column.old at (add binary64 (get_or column.old at nan) v) }
{
    if at < column.len() {
        column[at] += v;
    }
}

// An entry da of d_a at a row and a column: da x at the row's KKT row, da z at the column.
// Kept: x and z beside nvar, no point: they may have any length here.
pub fn land(column: &mut [f64], nvar: u32, e: Entry, x: &[f64], z: &[f64])
    ensures { column.new ≡ stored_all (landed_at x.now z.now nvar e) column.old }
{
    let Entry(row, col, da) = e;
    let r = row as usize;
    let c = col as usize;
    add(column, nvar as usize + r, da * value(x, c));
    add(column, c, da * value(z, r));
}
