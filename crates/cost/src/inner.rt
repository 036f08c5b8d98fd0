// What the generators' power costs. The records are those of an accepted network.
ghost use Rattle.std.specs.Prelude.{◌≡◌, cond, ◌+◌, ◌≤◌, length};
ghost use Rattle.records.specs.Fields.{piecewise_of, slope_of, intercept_of, cq_of, cl_of, cc_of};
ghost use Rattle.numbering.specs.Layout.{nvar_of};
ghost use Rattle.numbering.specs.Network.{grid};
ghost use Rattle.cost.specs.Cost.{max as greater, affine as line_of, parabola as parabola_of, highest, total_cost};

use numbering::Network;
use records::{Record, Records};

// Kept: the library's `max` promises either of two that compare equal, as 0 and -0; the port keeps the earlier.
fn max(a: f64, v: f64) -> f64
    ensures { result ≡ greater a v }
{
    if a < v {
        return v;
    }
    if a != a {
        return v;
    }
    a
}

#[tactic(auto, unfolding(crate::specs::Cost::affine))]
fn line(a: f64, b: f64, x: f64) -> f64
    ensures { result ≡ line_of a b x }
{
    a * x + b
}

#[tactic(auto, unfolding(crate::specs::Cost::parabola))]
fn parabola(a: f64, b: f64, c: f64, x: f64) -> f64
    ensures { result ≡ parabola_of a b c x }
{
    a * x * x + b * x + c
}

// The highest of the lines of a generator's segments.
fn evaluate(segments: Records<'_>, x: f64) -> f64
    ensures { result ≡ highest (λ t. slope_of segments.entry.bytes.now (segments.entry.first + t)) (λ t. intercept_of segments.entry.bytes.now (segments.entry.first + t)) segments.entry.count x }
{
    let mut best = -1.0 / 0.0;
    // Kept: by index: a run of records has no iterator (the reason is at `Records`).
    for t in 0..segments.count {
        let r = segments.record(t);
        best = max(best, line(r.slope(), r.intercept(), x));
    }
    best
}

// Of a generator with its segments.
fn generator_cost(r: Record<'_>, segments: Records<'_>, x: f64) -> f64
    ensures { result ≡ cond (piecewise_of r.entry.bytes.now r.entry.r) (highest (λ t. slope_of segments.entry.bytes.now (segments.entry.first + t)) (λ t. intercept_of segments.entry.bytes.now (segments.entry.first + t)) segments.entry.count x) (parabola_of (cq_of r.entry.bytes.now r.entry.r) (cl_of r.entry.bytes.now r.entry.r) (cc_of r.entry.bytes.now r.entry.r) x) }
{
    if r.piecewise() {
        return evaluate(segments, x);
    }
    parabola(r.cq(), r.cl(), r.cc(), x)
}

// Of all generators in order. A generator's segments start where those of the one before it end.
pub fn total_cost(net: &Network<'_>, x: &[f64]) -> f64
    requires { nvar_of net.now.layout ≤ length x.now }
    ensures { result ≡ total_cost (grid net.now) x.now }
{
    let l = net.layout;
    let pg = l.pg_column(0) as usize;
    let mut first = l.n + l.m + l.k;
    let mut sum = -0.0;
    // Kept: by index: g names the generator and its place in x, and its segments start where the last ones end.
    for g in 0..l.k {
        let r = net.generator(g);
        let count = r.segments();
        let segments = Records::new(net.bytes, first, count);
        sum += generator_cost(r, segments, x[pg + g]);
        first += count;
    }
    sum
}
