// Lists that have been found to fit.
ghost use Rattle.std.specs.Prelude.{◌≡◌, ℕ, ◌*◌, ◌≤◌, ◌<◌, length, get_or};
ghost use Rattle.sparse.specs.Sparse.{Segments};
ghost use Rattle.sparse.specs.Checks.{most_dim};

use crate::Selector;

// So many segments of terms: segment s is what item s of the selector has.
// Kept: segments beside the starts, since the starts of weighing's buffer are longer than what is in use.
#[derive(Clone, Copy)]
pub struct Terms<'a> {
    pub selector: Selector<'a>,
    pub segments: usize,
    pub dim: usize,
    ghost held: { Segments dim selector.starts.now selector.rows.now selector.weights.now segments },
}

// Rows below dim, and a weight beside each.
#[derive(Clone, Copy)]
pub struct Segment<'a> {
    pub rows: &'a [u32],
    pub weights: &'a [f64],
    pub dim: usize,
    ghost paired: { length weights.now ≡ length rows.now },
    ghost below: { (j : ℕ) → j < length rows.now → get_or rows.now j 0 < dim },
}

// A dense matrix that lies by columns: row r of column c at c * dim + r.
#[derive(Clone, Copy)]
pub struct Dense<'a> {
    pub values: &'a [f64],
    pub dim: usize,
    pub columns: usize,
    ghost small: { dim ≤ most_dim },
    ghost few: { columns ≤ 65536 },
    ghost full: { length values.now ≡ dim * columns },
}
