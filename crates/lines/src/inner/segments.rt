// The segments of the generators' costs.
ghost use Rattle.std.specs.Prelude.{◌≡◌, ◌<◌};
ghost use Rattle.lists.specs.UpTo.{sum, count};
ghost use Rattle.numbering.specs.declared.RowName.TheVariants.{Segment};
ghost use Rattle.numbering.specs.Network.{grid};
ghost use Rattle.lines.specs.Line.{Stands};

use super::{line, spot};
use crate::Line;
use bounds::inner::segment_side;
use numbering::Network;

// Segment t of generator g; so many segments and cost columns are before the generator's.
// Kept: (segments, curves), no struct: each is what a loop of blocks has counted, and used but once here.
pub fn segment(net: &Network<'_>, g: usize, t: usize, segments: usize, curves: usize) -> Line
    requires g_lt_k { (g < net.now.layout.k) × (t < (grid net.now).segments g) }
    requires segments_value { (segments ≡ sum g (grid net.now).segments) × (curves ≡ count g (grid net.now).piecewise) }
    ensures { Stands (grid net.now) (Segment g t) result }
{
    let l = net.layout;
    let position = segments + t;
    let r = net.segment(position);
    let row = l.segment_row(position);
    let col = l.cost_column(curves);
    let v = r.slope();
    line(
        row,
        segment_side(r),
        spot(v != 0.0, l.pg_column(g), v),
        spot(true, col, -1.0),
    )
}
