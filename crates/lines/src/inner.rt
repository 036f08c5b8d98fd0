// The rows by kind, of an accepted network.
ghost use Rattle.std.specs.Prelude.{◌≡◌};
ghost use Rattle.lines.specs.Line.{spot as spot_of, line as line_of, single_line as single_of};

use crate::{Line, Spot};

pub mod bounded;
pub mod cones;
pub mod ohm;
pub mod segments;

pub(crate) fn spot(on: bool, col: u32, val: f64) -> Spot
    ensures { result ≡ spot_of on col val }
{
    Spot { on, col, val }
}

pub(crate) fn single(row: u32, rhs: f64, on: bool, col: u32, val: f64) -> Line
    ensures { result ≡ single_of row rhs on col val }
{
    Line {
        row,
        rhs,
        first: Spot {
            on: false,
            col,
            val,
        },
        second: Spot { on, col, val },
    }
}

pub(crate) fn line(row: u32, rhs: f64, first: Spot, second: Spot) -> Line
    ensures { result ≡ line_of row rhs first second }
{
    Line {
        row,
        rhs,
        first,
        second,
    }
}
