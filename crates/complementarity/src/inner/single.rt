// One row of at most two terms.
// Kept: nvar, x and z beside the line, no Point: no network is known here, and what is asked is of the lists' lengths alone.
ghost use Rattle.std.specs.Prelude.{◌≡◌, ◌+◌, ◌<◌, ◌^◌, length};
ghost use Rattle.std.specs.Float.Ieee.{mul};
ghost use Rattle.std.specs.Float.{binary64};
ghost use Rattle.lists.specs.Puts.{Puts};
ghost use Rattle.lines.specs.Line.{line_at, spot_sum, line_slack, Within};
ghost use Rattle.complementarity.specs.Writes.{bound_line, line_in};

use lines::{Line, Spot};
use lists::Triplets;

// The terms in row r.
pub(crate) fn put_line(list: &mut Triplets<'_>, r: u32, line: Line)
    requires { list.old.at + length (line_at r (λ a. a) line) < 2 ^ 64 }
    ensures { Puts (line_at r (λ a. a) line) list.old list.new }
{
    let s = line.first;
    let t = line.second;
    list.put_if(s.on, r, s.col, s.val);
    list.put_if(t.on, r, t.col, t.val);
}

// The terms in row r, each times f.
// Kept: put_line is not this with f = 1, since 1.0 * NaN may be another NaN; one function would take f as an Option or a closure.
pub(crate) fn put_scaled(list: &mut Triplets<'_>, r: u32, f: f64, line: Line)
    requires { list.old.at + length (line_at r (mul binary64 f) line) < 2 ^ 64 }
    ensures { Puts (line_at r (mul binary64 f) line) list.old list.new }
{
    let s = line.first;
    let t = line.second;
    list.put_if(s.on, r, s.col, f * s.val);
    list.put_if(t.on, r, t.col, f * t.val);
}

fn add_term(x: &[f64], a: f64, t: Spot) -> f64
    requires { t.col < length x.now }
    ensures { result ≡ spot_sum x.now a t }
{
    if t.on {
        return a + t.val * x[t.col as usize];
    }
    a
}

// b less the row's sum, which starts at negative zero.
pub(crate) fn slack(x: &[f64], line: Line) -> f64
    requires { (line.first.col < length x.now) × (line.second.col < length x.now) }
    ensures { result ≡ line_slack x.now line }
{
    let s = line.first;
    let t = line.second;
    let a = add_term(x, -0.0, s);
    line.rhs - add_term(x, a, t)
}

// -z times the terms, and the slack on the diagonal.
fn put_bound(list: &mut Triplets<'_>, nvar: u32, line: Line, x: &[f64], z: &[f64])
    requires within { Within (length x.now) (length z.now) line }
    requires z_bound { nvar + length z.now < 2 ^ 32 }
    requires line_bound { list.old.at + length (bound_line nvar x.now z.now line) < 2 ^ 64 }
    ensures { Puts (bound_line nvar x.now z.now line) list.old list.new }
{
    let r = nvar + line.row;
    let f = -z[line.row as usize];
    put_scaled(list, r, f, line);
    list.put(r, r, slack(x, line));
}

// The row as it is, or as a row of the nonnegative cone.
// Kept: `bound` is a test, as in line_in; two functions would double their callers in blocks and entries, which pass it on.
pub fn put_row(list: &mut Triplets<'_>, bound: bool, nvar: u32, line: Line, x: &[f64], z: &[f64])
    requires within { Within (length x.now) (length z.now) line }
    requires z_bound { nvar + length z.now < 2 ^ 32 }
    requires line_bound { list.old.at + length (line_in nvar x.now z.now bound line) < 2 ^ 64 }
    ensures { Puts (line_in nvar x.now z.now bound line) list.old list.new }
{
    if bound {
        put_bound(list, nvar, line, x, z);
    } else {
        put_line(list, nvar + line.row, line);
    }
}
