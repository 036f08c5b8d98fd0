// The largest absolute value of a matrix.
ghost use Rattle.std.specs.Prelude.{◌≡◌, true};
ghost use Rattle.residual.specs.Magnitude.{absolute, larger, max_abs, unsigned};

// The larger of m, a number with its sign clear, and the absolute value of x.
// Kept: of two that compare equal std's max may answer either, and no law of std says that equal floats of one sign are one.
fn larger_of(m: f64, x: f64) -> f64
    requires { unsigned m ≡ true }
    ensures { (result ≡ larger m (absolute x)) × (unsigned result ≡ true) }
{
    if m < x {
        return x;
    }
    if m < -x {
        return -x;
    }
    m
}

// The largest absolute value. What is no number is skipped.
pub fn max_abs(matrix: &[f64]) -> f64
    ensures { result ≡ max_abs matrix.now }
{
    let mut m = 0.0;
    for x in matrix {
        m = larger_of(m, *x);
    }
    m
}
