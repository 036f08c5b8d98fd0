// The column of a branch's limit.
ghost use Rattle.std.specs.Prelude.{◌≡◌, [], ◌∷◌, ◌+◌, ◌<◌, get_or};
ghost use Rattle.std.specs.Float.{nan};
ghost use Rattle.lists.specs.UpTo.{each};
ghost use Rattle.numbering.specs.Tally.{tally_of};
ghost use Rattle.numbering.specs.Network.{grid};
ghost use Rattle.numbering.specs.declared.Tally.TheVariants.{Limited};
ghost use Rattle.admittance.specs.Stores.{put, stored_all};
ghost use Rattle.columns.specs.Jacobian.{limit_stores};

use admittance::inner::stores::value;
use lists::inner::store;
use numbering::Network;

// z at six rows from the base on.
// Kept: by index: `value` and `store` take places past the ends of the lists, where a slice would ask for their lengths.
fn six(nvar: u32, base: u32, z: &[f64], column: &mut [f64])
    ensures { column.new ≡ stored_all (each 6 (λ q. put (nvar + (base + q)) (get_or z.now (base + q) nan) ∷ [])) column.old }
{
    let start = nvar as usize;
    let first = base as usize;
    for q in 0..6 {
        store(column, start + (first + q), value(z, first + q));
    }
}

// The cones' z, or nothing where the branch has no limit; before it there are so many limited branches.
// Kept: `before` with its clause, as in column.rt.
pub fn line_limit(net: &Network<'_>, e: usize, before: usize, z: &[f64], column: &mut [f64])
    requires e_lt_m { e < net.now.layout.m }
    requires before_value { before ≡ tally_of Limited net.now.bytes.now net.now.layout.n e }
    ensures { column.new ≡ stored_all (limit_stores (grid net.now) z.now e) column.old }
{
    let l = net.layout;
    if net.branch(e).thermal_limit_active() {
        six(l.column_count(), l.thermal_row(before, 0), z, column);
    }
}
