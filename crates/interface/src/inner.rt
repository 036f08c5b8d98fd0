// A list of numbers that follow one another.
ghost use Rattle.std.specs.Prelude.{◌≡◌, ◌+◌, ◌≤◌, length};
ghost use Rattle.lists.specs.UpTo.{listed, overlay};

pub mod lent;

// base, base + 1, .., n of them.
pub fn count_from(d: &mut [u32], n: usize, base: u32)
    requires { (n ≤ length d.old) × (n ≤ 131072) × (base ≤ 131072) }
    ensures { d.new ≡ overlay (listed n (λ i. base + i)) d.old }
{
    for (i, place) in d[..n].iter_mut().enumerate() {
        *place = base + i as u32;
    }
}
