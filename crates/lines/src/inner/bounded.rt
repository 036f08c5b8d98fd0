// The bounds of voltages, dispatches and angles.
ghost use Rattle.std.specs.Prelude.{◌≡◌, ◌&&◌, ◌<◌};
ghost use Rattle.std.specs.Float.Ieee.{ne};
ghost use Rattle.numbering.specs.Layout.{layout_column};
ghost use Rattle.numbering.specs.Network.{grid};
ghost use Rattle.numbering.specs.declared.ColumnName.TheVariants.{Wr, Wi};
ghost use Rattle.rows.specs.Rows.{zero64};
ghost use Rattle.bounds.specs.Kinds.{bound_name, bound_count};
ghost use Rattle.lines.specs.Line.{Stands, spot as spot_of, line as line_of};

use super::{line, single, spot};
use crate::Line;
use bounds::inner::bound_side;
use bounds::{BoundKind, Side};
use numbering::Network;

// A row of branch e's angle, with v at wr and c at wi.
fn angle(net: &Network<'_>, e: usize, row: u32, s: Side, v: f64, c: f64) -> Line
    requires { e < net.now.layout.m }
    ensures { result ≡ line_of row s.rhs (spot_of (s.on && ne v zero64) (layout_column net.now.layout (Wr e)) v) (spot_of s.on (layout_column net.now.layout (Wi e)) c) }
{
    let l = net.layout;
    line(
        row,
        s.rhs,
        spot(s.on & (v != 0.0), l.wr_column(e), v),
        spot(s.on, l.wi_column(e), c),
    )
}

// The row of record i. "The tangents are read only where the angle rows are active"; where they are not, no row has the 0.
pub fn bound_line(net: &Network<'_>, kind: BoundKind, i: usize) -> Line
    requires { i < bound_count net.now.layout kind }
    ensures { Stands (grid net.now) (bound_name kind i) result }
{
    let l = net.layout;
    let s = bound_side(net, kind, i);
    match kind {
        BoundKind::Wub => single(l.wub_row(i), s.rhs, s.on, l.w_column(i), 1.0),
        BoundKind::Wlb => single(l.wlb_row(i), s.rhs, s.on, l.w_column(i), -1.0),
        BoundKind::Pgub => single(l.pgub_row(i), s.rhs, s.on, l.pg_column(i), 1.0),
        BoundKind::Pglb => single(l.pglb_row(i), s.rhs, s.on, l.pg_column(i), -1.0),
        BoundKind::Qgub => single(l.qgub_row(i), s.rhs, s.on, l.qg_column(i), 1.0),
        BoundKind::Qglb => single(l.qglb_row(i), s.rhs, s.on, l.qg_column(i), -1.0),
        BoundKind::Angub => {
            let v = if s.on {
                -net.branch(i).tan_angmax()
            } else {
                0.0
            };
            angle(net, i, l.angub_row(i), s, v, 1.0)
        }
        BoundKind::Anglb => {
            let v = if s.on {
                net.branch(i).tan_angmin()
            } else {
                0.0
            };
            angle(net, i, l.anglb_row(i), s, v, -1.0)
        }
    }
}
