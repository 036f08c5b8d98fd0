// The right sides by kind, of an accepted network.
ghost use Rattle.std.specs.Prelude.{◌≡◌, ◌<◌, cond};
ghost use Rattle.std.specs.Float.Ieee.{neg};
ghost use Rattle.records.specs.Fields.{intercept_of};
ghost use Rattle.numbering.specs.declared.RowName.TheVariants.{Thermal};
ghost use Rattle.numbering.specs.Network.{grid};
ghost use Rattle.ring.specs.Ops.{rounded};
ghost use Rattle.rows.specs.Rows.{b};
ghost use Rattle.bounds.specs.Kinds.{bound_name, bound_count, bound_active};
ghost use Rattle.bounds.specs.Side.{side_of, Sided};

use crate::{BoundKind, Side};
use branch::inner::conic_angle_bound_active;
use numbering::Network;
use records::Record;

// The value where a bound is active, else 1.
fn side(on: bool, v: f64) -> Side
    ensures { result ≡ side_of on v }
{
    let rhs = if on { v } else { 1.0 };
    Side { on, rhs }
}

fn active(net: &Network<'_>, kind: BoundKind, i: usize) -> bool
    requires { i < bound_count net.now.layout kind }
    ensures { result ≡ bound_active (grid net.now) kind i }
{
    match kind {
        BoundKind::Wub | BoundKind::Wlb => net.bus(i).voltage_bound_active(),
        BoundKind::Pgub | BoundKind::Pglb | BoundKind::Qgub | BoundKind::Qglb => {
            net.generator(i).generator_capability_active()
        }
        BoundKind::Angub | BoundKind::Anglb => conic_angle_bound_active(net.branch(i)),
    }
}

// The right side where the bound is active.
#[tactic(auto, unfolding(rows::specs::Rows::b))]
fn limit(net: &Network<'_>, kind: BoundKind, i: usize) -> f64
    requires { i < bound_count net.now.layout kind }
    ensures { b (grid net.now) (bound_name kind i) ≡ cond (bound_active (grid net.now) kind i) result rounded.one }
{
    match kind {
        BoundKind::Wub => {
            let v = net.bus(i).vm_max();
            v * v
        }
        BoundKind::Wlb => {
            let v = net.bus(i).vm_min();
            -v * v
        }
        BoundKind::Pgub => net.generator(i).pmax(),
        BoundKind::Pglb => -net.generator(i).pmin(),
        BoundKind::Qgub => net.generator(i).qmax(),
        BoundKind::Qglb => -net.generator(i).qmin(),
        BoundKind::Angub | BoundKind::Anglb => 0.0,
    }
}

// Of the row of record i.
pub fn bound_side(net: &Network<'_>, kind: BoundKind, i: usize) -> Side
    requires { i < bound_count net.now.layout kind }
    ensures { Sided (grid net.now) (bound_active (grid net.now) kind i) (bound_name kind i) result }
{
    side(active(net, kind, i), limit(net, kind, i))
}

// The right side of a segment.
pub fn segment_side(r: Record<'_>) -> f64
    ensures { result ≡ neg (intercept_of r.entry.bytes.now r.entry.r) }
{
    -r.intercept()
}

// The right side of the first row of each of branch e's two thermal cones; the rows behind it have 0.
#[tactic(auto, unfolding(rows::specs::Rows::b))]
pub fn rating(net: &Network<'_>, e: usize) -> f64
    requires { e < net.now.layout.m }
    ensures value { result ≡ b (grid net.now) (Thermal e 0) }
    ensures value_2 { result ≡ b (grid net.now) (Thermal e 3) }
{
    net.branch(e).rate_a()
}
