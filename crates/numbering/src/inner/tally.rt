// Counts over a run of records: how many points they have, and which record a point is in.
ghost use Rattle.std.specs.Prelude.{◌≡◌, ◌≤◌, ◌<◌};
ghost use Rattle.numbering.specs.Tally.{tally_of, points_of, Located};

use crate::{Place, Tally};
use records::{Record, Records};

// The points of a record.
fn points(t: Tally, r: Record<'_>) -> usize
    ensures value { result ≡ points_of t r.entry.bytes.now r.entry.r }
    ensures upper_bound { result < 65536 }
{
    match t {
        Tally::Limited => usize::from(r.thermal_limit_active()),
        Tally::Piecewise => usize::from(r.piecewise()),
        Tally::Segments => r.segments(),
    }
}

// The points of all.
pub fn tally(t: Tally, run: Records<'_>) -> usize
    requires { run.count ≤ 8192 }
    ensures { result ≡ tally_of t run.entry.bytes.now run.entry.first run.entry.count }
{
    let mut sum = 0;
    for i in 0..run.count {
        sum += points(t, run.record(i));
    }
    sum
}

// Which of them has point p, and at which place.
pub fn locate(t: Tally, run: Records<'_>, p: usize) -> Place
    requires { p < tally_of t run.bytes.now run.first run.count }
    ensures { Located t run.entry.bytes.now run.entry.first run.entry.count p result }
{
    let mut rest = p;
    for i in 0..run.count {
        let here = points(t, run.record(i));
        if rest < here {
            return Place { item: i, at: rest };
        }
        rest -= here;
    }
    unreachable!()
}
