// One second-order cone.
ghost use Rattle.std.specs.Prelude.{◌≡◌, ℕ, ◌+◌, ◌<◌, ◌^◌, length, get_or};
ghost use Rattle.std.specs.Float.{nan};
ghost use Rattle.lists.specs.UpTo.{each};
ghost use Rattle.lists.specs.Puts.{Puts};
ghost use Rattle.kkt.specs.Kkt.{arrow as arrow_of};
ghost use Rattle.lines.specs.Line.{cone_line, Within};
ghost use Rattle.complementarity.specs.Writes.{part as part_of, duals_of, slacks_of, by_x, by_z, cone_row_of, cone_of, plain_cone, cone_lines};

use crate::Placed;
use crate::inner::single::{put_line, put_scaled, slack};
use lines::{Cone, Four, Line};
use lists::Triplets;

// Row j, column l of the arrow matrix of q.
fn arrow(q: Four<f64>, j: usize, l: usize) -> f64
    ensures { result ≡ arrow_of (part_of q) j l }
{
    if j == 0 {
        return q.at(l);
    }
    if l == 0 {
        return q.at(j);
    }
    if l == j {
        return q.a;
    }
    0.0
}

fn dual(z: &[f64], line: Line) -> f64
    requires { line.row < length z.now }
    ensures { result ≡ get_or z.now line.row nan }
{
    z[line.row as usize]
}

// The duals of the cone's rows.
fn duals(z: &[f64], c: Cone) -> Four<f64>
    requires { (l : ℕ) → (cone_line c l).row < length z.now }
    ensures { result ≡ duals_of z.now c }
{
    Four {
        a: dual(z, c.a),
        b: dual(z, c.b),
        c: dual(z, c.c),
        d: dual(z, c.d),
    }
}

// The slacks of the cone's rows.
// Kept: the likeness with duals is the four fields alone.
fn slacks(x: &[f64], c: Cone) -> Four<f64>
    requires { (l : ℕ) → ((cone_line c l).first.col < length x.now) × ((cone_line c l).second.col < length x.now) }
    ensures { result ≡ slacks_of x.now c }
{
    Four {
        a: slack(x, c.a),
        b: slack(x, c.b),
        c: slack(x, c.c),
        d: slack(x, c.d),
    }
}

impl Placed {
    // The number of row l in the KKT matrix.
    fn number(self, l: usize) -> u32
        ensures { result ≡ self.nvar + (cone_line self.cone l).row }
    {
        self.nvar + self.cone.at(l).row
    }
}

// Of row j, what row l gives: -arrow(z) times its terms.
fn put_by_x(list: &mut Triplets<'_>, k: Placed, zs: Four<f64>, j: usize, l: usize)
    requires { list.old.at + length (by_x k.nvar k.cone zs j l) < 2 ^ 64 }
    ensures { Puts (by_x k.nvar k.cone zs j l) list.old list.new }
{
    let line = k.cone.at(l);
    let r = k.number(j);
    let a = arrow(zs, j, l);
    if a != 0.0 {
        put_scaled(list, r, -a, line);
    }
}

fn cone_by_x(list: &mut Triplets<'_>, k: Placed, zs: Four<f64>, j: usize)
    requires { list.old.at + length (each k.d (by_x k.nvar k.cone zs j)) < 2 ^ 64 }
    ensures { Puts (each k.d (by_x k.nvar k.cone zs j)) list.old list.new }
{
    for l in 0..k.d {
        put_by_x(list, k, zs, j, l);
    }
}

// Of row j, what row l gives: arrow(s).
fn put_by_z(list: &mut Triplets<'_>, k: Placed, ss: Four<f64>, j: usize, l: usize)
    requires { list.old.at + length (by_z k.nvar k.cone ss j l) < 2 ^ 64 }
    ensures { Puts (by_z k.nvar k.cone ss j l) list.old list.new }
{
    let a = arrow(ss, j, l);
    let r = k.number(j);
    let q = k.number(l);
    list.put_if(a != 0.0, r, q, a);
}

// Kept: one function with cone_by_x would take the step as a closure, and its whole contract with it.
fn cone_by_z(list: &mut Triplets<'_>, k: Placed, ss: Four<f64>, j: usize)
    requires { list.old.at + length (each k.d (by_z k.nvar k.cone ss j)) < 2 ^ 64 }
    ensures { Puts (each k.d (by_z k.nvar k.cone ss j)) list.old list.new }
{
    for l in 0..k.d {
        put_by_z(list, k, ss, j, l);
    }
}

fn cone_row(list: &mut Triplets<'_>, k: Placed, zs: Four<f64>, ss: Four<f64>, j: usize)
    requires { list.old.at + length (cone_row_of k.nvar k.cone zs ss k.d j) < 2 ^ 64 }
    ensures { Puts (cone_row_of k.nvar k.cone zs ss k.d j) list.old list.new }
{
    cone_by_x(list, k, zs, j);
    cone_by_z(list, k, ss, j);
}

fn put_cone(list: &mut Triplets<'_>, k: Placed, zs: Four<f64>, ss: Four<f64>)
    requires { list.old.at + length (cone_of k.nvar k.cone zs ss k.d) < 2 ^ 64 }
    ensures { Puts (cone_of k.nvar k.cone zs ss k.d) list.old list.new }
{
    for j in 0..k.d {
        cone_row(list, k, zs, ss, j);
    }
}

// The rows as they are.
fn put_plain(list: &mut Triplets<'_>, k: Placed)
    requires { list.old.at + length (plain_cone k.nvar k.cone k.d) < 2 ^ 64 }
    ensures { Puts (plain_cone k.nvar k.cone k.d) list.old list.new }
{
    for j in 0..k.d {
        put_line(list, k.number(j), k.cone.at(j));
    }
}

// The first d rows of c as they are, or as rows of a second-order cone.
// Kept: `cone` is a test, as in cone_lines; two functions would double their callers. x and z come as lists, since no network is known here.
pub fn put_lines(
    list: &mut Triplets<'_>,
    cone: bool,
    nvar: u32,
    c: Cone,
    d: usize,
    x: &[f64],
    z: &[f64],
)
    requires by_index { (l : ℕ) → Within (length x.now) (length z.now) (cone_line c l) }
    requires z_bound { nvar + length z.now < 2 ^ 32 }
    requires d_bound { list.old.at + length (cone_lines nvar x.now z.now cone c d) < 2 ^ 64 }
    ensures { Puts (cone_lines nvar x.now z.now cone c d) list.old list.new }
{
    let k = Placed { nvar, cone: c, d };
    if cone {
        let zs = duals(z, c);
        let ss = slacks(x, c);
        put_cone(list, k, zs, ss);
    } else {
        put_plain(list, k);
    }
}
