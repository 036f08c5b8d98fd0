// What the writers by columns and by blocks share.
ghost use Rattle.std.specs.Prelude.{◌≡◌, ◌+◌, ◌≤◌, length};
ghost use Rattle.std.specs.Float.Ieee.{ne};
ghost use Rattle.lists.specs.UpTo.{listed, bit};
ghost use Rattle.rows.specs.Rows.{zero64};
ghost use Rattle.cells.specs.Filled.{Filled};

pub mod writers;

// 1 if the value is put, else 0.
pub fn bit_nonzero(v: f64) -> usize
    ensures value { result ≡ bit (ne v zero64) }
    ensures upper_bound { result ≤ 1 }
{
    usize::from(v != 0.0)
}

// The same float count times, from a place on.
// Kept: lists' `fill` writes from the front, and promises an overlay; from a place on what is promised is `Filled`.
pub fn fill_all(out: &mut [f64], at: usize, count: usize, v: f64)
    requires { at + count ≤ length out.old }
    ensures { Filled (listed count (λ j. v)) out.old at out.new }
{
    out[at..at + count].fill(v);
}
