// Segments of terms by the columns of a dense matrix: what both combinations are made of.
// Two columns go together, so that one sum need not wait for the other.
// Kept: a function for one column and one for two: joint over their number, each turn would have a loop over an array of sums.
// Kept: grid, x and terms, with the dim that two of them share: a struct would be made for each call of weigh_all and copied out by each pass.
ghost use Rattle.std.specs.Prelude.{◌≡◌, ◌+◌, ◌*◌, ◌≤◌, ◌<◌, length};
ghost use Rattle.sparse.specs.Sparse.{item_of};
ghost use Rattle.sparse.specs.Lent.{cells_of};
ghost use Rattle.weighing.specs.Weighing.{weighed};
ghost use Rattle.weighing.specs.Passes.{place, Below, Spread, Passed, weighed_by};

use crate::Grid;
use sparse::{Dense, Segment, Selector, Terms};

#[derive(Clone, Copy)]
pub(crate) struct Two {
    pub(crate) a: f64,
    pub(crate) b: f64,
}

// The terms of segment s by the first column of x, added to a.
// Kept: by index in the whole lists: over a segment's slices, zipped or enumerated, segments of one row or none took up to 1.7 times the time (docs/LOOK-BACK.md).
fn weigh_one(x: &[f64], terms: &Terms<'_>, s: usize, a: f64) -> f64
    requires { (s < terms.now.segments) × (terms.now.dim ≤ length x.now) }
    ensures { result ≡ weighed x.now 0 (item_of terms.now.selector.starts.now terms.now.selector.rows.now terms.now.selector.weights.now s) a }
{
    let Selector {
        starts,
        rows,
        weights,
    } = terms.selector;
    let first = starts[s] as usize;
    let count = starts[s + 1] as usize - first;
    let mut sum = a;
    for k in 0..count {
        let at = rows[first + k] as usize;
        sum += weights[first + k] * x[at];
    }
    sum
}

// The terms of a segment by the first two columns of x, added to start.
// Kept: a weight by its row's place: zipped, segments of one row took up to 1.4 times the time (docs/LOOK-BACK.md).
fn weigh_two(x: &[f64], segment: &Segment<'_>, start: Two) -> Two
    requires { segment.now.dim + segment.now.dim ≤ length x.now }
    ensures a_value { result.a ≡ weighed x.now 0 (cells_of segment.now) start.a }
    ensures b_value { result.b ≡ weighed x.now segment.now.dim (cells_of segment.now) start.b }
{
    let mut a = start.a;
    let mut b = start.b;
    for (k, row) in segment.rows.iter().enumerate() {
        let weight = segment.weights[k];
        let here = *row as usize;
        let there = segment.dim + here;
        a += weight * x[here];
        b += weight * x[there];
    }
    Two { a, b }
}

// Kept: p, and below q, go on by a stride: found anew from s in each turn (tried, in the same loops in Rust) they cost 1 to 9 in 100 instructions more.
// Dense column d.
fn pass_one(out: &mut [f64], grid: &Grid, x: &Dense<'_>, d: usize, terms: &Terms<'_>)
    requires spread { Spread (grid.now.at + d * grid.now.dense) 0 grid.now.across 1 terms.now.segments (length out.old) }
    requires d { (d < x.now.columns) × (x.now.dim ≡ terms.now.dim) }
    ensures { Passed (place (grid.now.at + d * grid.now.dense) 0 grid.now.across) (Below 1 terms.now.segments) (weighed_by x.now (d * x.now.dim) terms.now) out.old out.new }
{
    let (x, terms, across) = (*x, *terms, grid.across);
    let column = &x.values[d * x.dim..];
    let mut p = grid.at + d * grid.dense;
    for s in 0..terms.segments {
        out[p] = weigh_one(column, &terms, s, out[p]);
        p += across;
    }
}

// Dense columns d and d + 1.
fn pass_two(out: &mut [f64], grid: &Grid, x: &Dense<'_>, d: usize, terms: &Terms<'_>)
    requires spread { Spread (grid.now.at + d * grid.now.dense) grid.now.dense grid.now.across 2 terms.now.segments (length out.old) }
    requires d { (d + 1 < x.now.columns) × (x.now.dim ≡ terms.now.dim) }
    ensures { Passed (place (grid.now.at + d * grid.now.dense) grid.now.dense grid.now.across) (Below 2 terms.now.segments) (weighed_by x.now (d * x.now.dim) terms.now) out.old out.new }
{
    // Copied, so that a write to out makes the loop read none of them again.
    let (x, terms, across) = (*x, *terms, grid.across);
    let columns = &x.values[d * x.dim..];
    let mut p = grid.at + d * grid.dense;
    let mut q = p + grid.dense;
    for s in 0..terms.segments {
        let start = Two {
            a: out[p],
            b: out[q],
        };
        let two = weigh_two(columns, &terms.segment(s), start);
        out[p] = two.a;
        out[q] = two.b;
        p += across;
        q += across;
    }
}

// Each segment by each dense column.
pub fn weigh_all(out: &mut [f64], grid: &Grid, x: &Dense<'_>, terms: &Terms<'_>)
    requires spread { Spread grid.now.at grid.now.dense grid.now.across x.now.columns terms.now.segments (length out.old) }
    requires dim { x.now.dim ≡ terms.now.dim }
    ensures { Passed (place grid.now.at grid.now.dense grid.now.across) (Below x.now.columns terms.now.segments) (weighed_by x.now 0 terms.now) out.old out.new }
{
    for pair in 0..x.columns / 2 {
        pass_two(out, grid, x, 2 * pair, terms);
    }
    if x.columns % 2 == 1 {
        pass_one(out, grid, x, x.columns - 1, terms);
    }
}
