// The ends that balance rows add up: generators, and branches at their from and to buses.
ghost use Rattle.std.specs.Prelude.{◌≡◌, ◌<◌};
ghost use Rattle.numbering.specs.Layout.{layout_column};
ghost use Rattle.numbering.specs.Network.{grid};
ghost use Rattle.rows.specs.Rows.{constant64};
ghost use Rattle.balance.specs.Ends.{end_count, bus_at, end_column, end_constant, self_value};

use crate::End;
use numbering::{Network, SocWrLayout};

pub(crate) fn count_at(l: SocWrLayout, end: End) -> usize
    ensures { result ≡ end_count l end }
{
    match end {
        End::Gen => l.k,
        End::From | End::To => l.m,
    }
}

// The bus of end j.
pub(crate) fn bus_at(net: &Network<'_>, end: End, j: usize) -> usize
    requires { j < end_count net.now.layout end }
    ensures { result ≡ bus_at (grid net.now) end j }
{
    match end {
        End::Gen => net.generator(j).gen_bus() as usize,
        End::From => net.branch(j).br_from() as usize,
        End::To => net.branch(j).br_to() as usize,
    }
}

// The column of end j in the active or the reactive balance rows.
pub(crate) fn column_at(net: &Network<'_>, q: bool, end: End, j: usize) -> u32
    requires { j < end_count net.now.layout end }
    ensures { result ≡ layout_column net.now.layout (end_column q end j) }
{
    let l = net.layout;
    match (end, q) {
        (End::Gen, false) => l.pg_column(j),
        (End::Gen, true) => l.qg_column(j),
        (End::From, false) => l.pf_column(j),
        (End::From, true) => l.qf_column(j),
        (End::To, false) => l.pt_column(j),
        (End::To, true) => l.qt_column(j),
    }
}

pub(crate) fn value_at(end: End) -> f64
    ensures { result ≡ constant64 (end_constant end) }
{
    match end {
        End::Gen => 1.0,
        End::From | End::To => -1.0,
    }
}

// The coefficient of the bus's own w.
pub(crate) fn self_value(net: &Network<'_>, q: bool, i: usize) -> f64
    requires { i < net.now.layout.n }
    ensures { result ≡ self_value (grid net.now) q i }
{
    let r = net.bus(i);
    if q {
        return r.bs();
    }
    -r.gs()
}
