// The prices of a solution's z.
ghost use Rattle.std.specs.Prelude.{◌≡◌, ◌++◌, ◌+◌, ◌≤◌, length, get_or};
ghost use Rattle.std.specs.Float.{nan};
ghost use Rattle.std.specs.Float.Ieee.{neg};
ghost use Rattle.lists.specs.UpTo.{listed, overlay};

// One negating fill.
// Kept: by index: a copy would call memmove, which the static library would ask of the outside, and over both lists at once they would have to be zipped.
fn negate(z: &[f64], out: &mut [f64])
    requires { length out.old ≤ length z.now }
    ensures { out.new ≡ listed (length out.old) (λ i. neg (get_or z.now i nan)) }
{
    for i in 0..out.len() {
        out[i] = -z[i];
    }
}

// n elements of z from one place on to the first n places, and n from another on to the next n places.
// Kept: places as numbers, no slices: the layout gives numbers, and its caller would cut the same four slices.
pub fn negate_both(n: usize, active: usize, reactive: usize, z: &[f64], prices: &mut [f64])
    requires { (active + n ≤ length z.now) × (reactive + n ≤ length z.now) × (n + n ≤ length prices.old) }
    ensures { prices.new ≡ overlay (listed n (λ i. neg (get_or z.now (active + i) nan)) ++ listed n (λ i. neg (get_or z.now (reactive + i) nan))) prices.old }
{
    let end = n + n;
    negate(&z[active..], &mut prices[..n]);
    negate(&z[reactive..], &mut prices[n..end]);
}
