// b: a list of floats.
// Kept: by index: i names the record too, and a turn writes in up to four stretches of the list.
// Kept: five functions ask that the rows fit the list; a struct that holds it would hold b and a fact of another value, the network's rows.
// Kept: (out, at), no Cells: a list of floats alone, and the places are those of the layout's rows, not the next ones.
ghost use Rattle.std.specs.Prelude.{◌≡◌, ◌+◌, ◌≤◌, ◌<◌, length};
ghost use Rattle.std.specs.Float.Ieee.{neg};
ghost use Rattle.lists.specs.UpTo.{listed, when, overlay};
ghost use Rattle.records.specs.Fields.{intercept_of};
ghost use Rattle.numbering.specs.Layout.{ncon_of};
ghost use Rattle.numbering.specs.Network.{grid};
ghost use Rattle.numbering.specs.declared.RowName.TheVariants.{Angub, Anglb};
ghost use Rattle.matrix.specs.Lists.{right_side};
ghost use Rattle.cells.specs.Filled.{Filled};
ghost use Rattle.cells.specs.Runs.{RunsOver};
ghost use Rattle.sides.specs.Sides.{side_at, ohm_runs, bus_runs, generator_runs, branch_runs, rating_sides};

use bounds::BoundKind;
use bounds::inner::{bound_side, rating, segment_side};
use cells::inner::fill_all;
use numbering::Network;
use numbering::inner::blocks;
use records::Records;

// The right side of branch e in angub and in anglb.
fn angle_rhs(net: &Network<'_>, e: usize) -> f64
    requires { e < net.now.layout.m }
    ensures value { result ≡ side_at net.now.layout net.now.bytes.now Angub e }
    ensures value_2 { result ≡ side_at net.now.layout net.now.bytes.now Anglb e }
{
    bound_side(net, BoundKind::Angub, e).rhs
}

// pbal and qbal, wub and wlb.
fn fill_buses(out: &mut [f64], net: &Network<'_>)
    requires { ncon_of net.now.layout ≤ length out.old }
    ensures { RunsOver (bus_runs net.now.layout net.now.bytes.now) out.old out.new }
{
    let l = net.layout;
    let pbal = l.pbal_row(0) as usize;
    let qbal = l.qbal_row(0) as usize;
    let wub = l.wub_row(0) as usize;
    let wlb = l.wlb_row(0) as usize;
    for i in 0..l.n {
        let r = net.bus(i);
        out[pbal + i] = r.pd();
        out[qbal + i] = r.qd();
        out[wub + i] = bound_side(net, BoundKind::Wub, i).rhs;
        out[wlb + i] = bound_side(net, BoundKind::Wlb, i).rhs;
    }
}

// pgub, pglb, qgub and qglb.
// Kept: fill_buses has other rows, another count and other records; joint, each of the four lines would take a parameter.
fn fill_capabilities(out: &mut [f64], net: &Network<'_>)
    requires { ncon_of net.now.layout ≤ length out.old }
    ensures { RunsOver (generator_runs net.now.layout net.now.bytes.now) out.old out.new }
{
    let l = net.layout;
    let pgub = l.pgub_row(0) as usize;
    let pglb = l.pglb_row(0) as usize;
    let qgub = l.qgub_row(0) as usize;
    let qglb = l.qglb_row(0) as usize;
    for g in 0..l.k {
        out[pgub + g] = bound_side(net, BoundKind::Pgub, g).rhs;
        out[pglb + g] = bound_side(net, BoundKind::Pglb, g).rhs;
        out[qgub + g] = bound_side(net, BoundKind::Qgub, g).rhs;
        out[qglb + g] = bound_side(net, BoundKind::Qglb, g).rhs;
    }
}

// The negated intercepts of a run of segments.
fn fill_intercepts(out: &mut [f64], at: usize, segments: Records<'_>)
    requires { at + segments.count ≤ length out.old }
    ensures { Filled (listed segments.entry.count (λ r. neg (intercept_of segments.entry.bytes.now (segments.entry.first + r)))) out.old at out.new }
{
    for i in 0..segments.count {
        out[at + i] = segment_side(segments.record(i));
    }
}

// The six right sides of a limited branch.
fn put_six(out: &mut [f64], at: usize, v: f64)
    requires { at + 6 ≤ length out.old }
    ensures { Filled (rating_sides v) out.old at out.new }
{
    out[at] = v;
    out[at + 1] = 0.0;
    out[at + 2] = 0.0;
    out[at + 3] = v;
    out[at + 4] = 0.0;
    out[at + 5] = 0.0;
}

// angub and anglb, and the thermal rows.
fn fill_branches(out: &mut [f64], net: &Network<'_>)
    requires { ncon_of net.now.layout ≤ length out.old }
    ensures { RunsOver (branch_runs net.now.layout net.now.bytes.now) out.old out.new }
{
    let l = net.layout;
    let angub = l.angub_row(0) as usize;
    let anglb = l.anglb_row(0) as usize;
    let mut next = l.thermal_row(0, 0) as usize;
    for e in 0..l.m {
        let v = angle_rhs(net, e);
        let on = net.branch(e).thermal_limit_active();
        let rate_a = rating(net, e);
        out[angub + e] = v;
        out[anglb + e] = v;
        if on {
            put_six(out, next, rate_a);
            next += 6;
        }
    }
}

// ohm_pf, ohm_qf, ohm_pt and ohm_qt: zeros.
#[tactic(auto, using(crate::proofs::Ends::pf_ends, crate::proofs::Ends::qf_ends, crate::proofs::Ends::pt_ends, crate::proofs::Ends::qt_ends))]
fn fill_ohms(out: &mut [f64], net: &Network<'_>)
    requires { ncon_of net.now.layout ≤ length out.old }
    ensures { RunsOver (ohm_runs net.now.layout) out.old out.new }
{
    let l = net.layout;
    let pf = l.ohm_pf_row(0) as usize;
    let qf = l.ohm_qf_row(0) as usize;
    let pt = l.ohm_pt_row(0) as usize;
    let qt = l.ohm_qt_row(0) as usize;
    fill_all(out, pf, l.m, 0.0);
    fill_all(out, qf, l.m, 0.0);
    fill_all(out, pt, l.m, 0.0);
    fill_all(out, qt, l.m, 0.0);
}

// All of b, block by block, each from its first row on.
#[tactic(auto, using(crate::proofs::Ends::segments_end, crate::proofs::Ends::jabr_ends))]
pub fn fill_b(out: &mut [f64], net: &Network<'_>)
    requires { ncon_of net.now.layout ≤ length out.old }
    ensures { out.new ≡ overlay (right_side (grid net.now)) out.old }
{
    let l = net.layout;
    let cones = blocks::JABR_ROWS * l.m;
    let cost = l.segment_row(0) as usize;
    let jabr = l.jabr_row(0, 0) as usize;
    fill_buses(out, net);
    fill_ohms(out, net);
    fill_capabilities(out, net);
    fill_intercepts(out, cost, net.segments());
    fill_all(out, jabr, cones, 0.0);
    fill_branches(out, net);
}
