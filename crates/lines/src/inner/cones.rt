// The second-order cones of a branch.
ghost use Rattle.std.specs.Prelude.{◌≡◌, true, ◌+◌, ◌<◌, ◌≤◌};
ghost use Rattle.lists.specs.UpTo.{count};
ghost use Rattle.numbering.specs.Layout.{layout_row};
ghost use Rattle.numbering.specs.Network.{grid};
ghost use Rattle.numbering.specs.declared.RowName.TheVariants.{Jabr, Thermal};
ghost use Rattle.lines.specs.Line.{ends_line as ends_of, thermal as thermal_of, thermal_rows, row_at, ConeStands};

use super::{line, single, spot};
use crate::{Cone, Four, Line};
use bounds::inner::rating;
use branch::inner::places::{from_bus, to_bus};
use interface::End;
use numbering::Network;

impl<T: Copy> Four<T> {
    // The value of row l.
    // Kept: l is a row's place, no kind; an array would be read at l.min(3), since put_lines bounds no place, and is no plainer.
    pub fn at(self, l: usize) -> T
        ensures { result ≡ row_at self l }
    {
        match l {
            0 => self.a,
            1 => self.b,
            2 => self.c,
            _ => self.d,
        }
    }
}

// -0.5 at the from bus and v at the to bus, the smaller number first.
fn ends(net: &Network<'_>, e: usize, row: u32, v: f64) -> Line
    requires { e < net.now.layout.m }
    ensures { result ≡ ends_of net.now.layout ((grid net.now).from e) ((grid net.now).to e) row v }
{
    let from = from_bus(net, e);
    let to = to_bus(net, e);
    let a = spot(true, net.layout.w_column(from), -0.5);
    let b = spot(true, net.layout.w_column(to), v);
    if from < to {
        return line(row, 0.0, a, b);
    }
    line(row, 0.0, b, a)
}

pub fn jabr(net: &Network<'_>, e: usize) -> Cone
    requires { e < net.now.layout.m }
    ensures { ConeStands (grid net.now) 4 (Jabr e) result }
{
    let l = net.layout;
    Four {
        a: ends(net, e, l.jabr_row(e, 0), -0.5),
        b: single(l.jabr_row(e, 1), 0.0, true, l.wr_column(e), -1.0),
        c: single(l.jabr_row(e, 2), 0.0, true, l.wi_column(e), -1.0),
        d: ends(net, e, l.jabr_row(e, 3), 0.5),
    }
}

// The three rows from place `first` on of the limited branch that has so many before it: rate at the first, then -1 at the flows p and q.
fn thermal_cone(net: &Network<'_>, limits: usize, first: usize, rate: f64, p: u32, q: u32) -> Cone
    requires { (limits ≤ net.now.layout.t) × (first < 4) }
    ensures { result ≡ thermal_of (layout_row net.now.layout (Thermal limits first)) (layout_row net.now.layout (Thermal limits (first + 1))) (layout_row net.now.layout (Thermal limits (first + 2))) rate p q }
{
    let l = net.layout;
    let a = single(l.thermal_row(limits, first), rate, false, p, 0.0);
    let b = single(l.thermal_row(limits, first + 1), 0.0, true, p, -1.0);
    let c = single(l.thermal_row(limits, first + 2), 0.0, true, q, -1.0);
    Four { a, b, c, d: c }
}

// The cone at an end of a limited branch; so many limited branches are before it.
// Kept: `limits` is asked beside e: it is what a loop of blocks has counted, and a struct of both would be made anew in each turn.
pub fn thermal(net: &Network<'_>, end: End, e: usize, limits: usize) -> Cone
    requires { (e < net.now.layout.m) × ((grid net.now).limited e ≡ true) × (limits ≡ count e (grid net.now).limited) }
    ensures { ConeStands (grid net.now) 3 (thermal_rows end e) result }
{
    let l = net.layout;
    let rate = rating(net, e);
    match end {
        End::From => thermal_cone(net, limits, 0, rate, l.pf_column(e), l.qf_column(e)),
        End::To => thermal_cone(net, limits, 3, rate, l.pt_column(e), l.qt_column(e)),
    }
}
