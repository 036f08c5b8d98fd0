// What a list to be written holds before a call, and whether floats are the kept ones.
ghost use Rattle.std.specs.Prelude.{◌≡◌, if◌then◌else◌, is_nan, to_bits};
ghost use Rattle.std.specs.Float.{binary64};

pub(crate) const UNWRITTEN: u32 = 0xa5a50000;
// Before the second call a float is a NaN.
pub(crate) const UNWRITTEN_FLOAT: f64 = -1234.5;

// The word that keeps a float: every NaN has one word, and zeros of unlike sign have two.
pub(crate) fn word_of(x: f64) -> u64
    ensures { result ≡ (if is_nan x then 0x7ff8_0000_0000_0000 else to_bits binary64 x) }
{
    if x.is_nan() {
        0x7ff8000000000000
    } else {
        x.to_bits()
    }
}

pub(crate) fn are_same(list: &[f64], kept: &[f64]) -> bool {
    list.iter()
        .zip(kept)
        .all(|(x, y)| word_of(*x) == word_of(*y))
}

// What a call leaves where NaNs are lent: a NaN where the list shows that nothing is written, else what the list holds.
pub(crate) fn are_left_alike(list: &[f64], over_nans: &[f64]) -> bool {
    list.iter().zip(over_nans).all(|(held, over_nan)| {
        if *held == UNWRITTEN_FLOAT {
            over_nan.is_nan()
        } else {
            word_of(*held) == word_of(*over_nan)
        }
    })
}
