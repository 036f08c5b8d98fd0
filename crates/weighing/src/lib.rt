// Terms weighed by the columns of a dense matrix: what both combinations are made of.
#![tactic(auto)]

ghost use Rattle.std.specs.Prelude.{◌≡◌, ◌≤◌, length};

pub mod inner;

// Where the cells of a table lie: that of dense column d and segment s at at + d * dense + s * across.
#[derive(Clone, Copy)]
pub struct Grid {
    pub at: usize,
    pub dense: usize,
    pub across: usize,
    ghost small: { (at ≤ 65536) × (dense ≤ 65536) × (across ≤ 65536) },
}

// Nonzero values in segments: count rows and values are in use.
// Kept: arrays with a count, since nothing here has a heap.
#[derive(Drop)]
pub struct Buffer {
    pub starts: [u32; 9],
    pub rows: [u32; 256],
    pub values: [f64; 256],
    pub segments: usize,
    pub count: usize,
    ghost sized: { (length starts ≡ 9) × (length rows ≡ 256) × (length values ≡ 256) },
}

// Where a walk over the columns stands.
#[derive(Clone, Copy)]
pub struct Spot {
    pub column: usize,
    pub row: usize,
}
