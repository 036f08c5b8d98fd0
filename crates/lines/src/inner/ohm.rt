// The Ohm rows of a branch.
ghost use Rattle.std.specs.Prelude.{◌<◌};
ghost use Rattle.numbering.specs.Network.{grid};
ghost use Rattle.rows.specs.Rows.{ohm_row};
ghost use Rattle.lines.specs.Ohm.{OhmStands};

use crate::Ohm;
use branch::inner::ohm::{w_at, wi_value, wr_value};
use branch::inner::places::{end_bus, flow_column, ohm_row};
use branch::inner::series;
use numbering::Network;
use rows::OhmRow;

pub fn ohm_line(net: &Network<'_>, q: OhmRow, e: usize) -> Ohm
    requires { e < net.now.layout.m }
    ensures { OhmStands (grid net.now) (ohm_row q e) result }
{
    let l = net.layout;
    let r = net.branch(e);
    let t = series(r);
    Ohm {
        row: ohm_row(q, net, e),
        w: l.w_column(end_bus(q, net, e)),
        wr: l.wr_column(e),
        wi: l.wi_column(e),
        flow: flow_column(q, net, e),
        at_w: w_at(q, t, r),
        at_wr: wr_value(q, t),
        at_wi: wi_value(q, t),
    }
}
