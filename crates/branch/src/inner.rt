// Readings of a branch's record.
ghost use Rattle.std.specs.Prelude.{◌≡◌};
ghost use Rattle.records.specs.Fields.{angled_of};
ghost use Rattle.rows.specs.Branch.{branch_of};
ghost use Rattle.branch.specs.Series.{series_of};

use crate::Series;
use records::Record;

pub mod ohm;
pub mod places;

#[tactic(auto, unfolding(rows::specs::Branch::gathered, records::specs::Network::branch_data_of))]
pub fn series(r: Record<'_>) -> Series
    ensures { result ≡ series_of (branch_of r.entry.bytes.now r.entry.r) }
{
    let t = r.tap();
    Series {
        g: r.g(),
        b: r.b(),
        tr: t * r.cos_shift(),
        ti: t * r.sin_shift(),
        tm2: t * t,
    }
}

// The flag is set, and the bounds are not as wide as the whole circle.
#[tactic(auto, unfolding(records::specs::Fields::angled_of))]
pub fn conic_angle_bound_active(r: Record<'_>) -> bool
    ensures { result ≡ angled_of r.entry.bytes.now r.entry.r }
{
    let low = r.angmin();
    let high = r.angmax();
    r.angle_bound_active() & !((low <= -3.141592653589793) & (high >= 3.141592653589793))
}
