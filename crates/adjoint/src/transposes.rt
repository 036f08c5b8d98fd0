// The entries with row and column exchanged.
// Kept: three lists to write, and in the check their lengths: they are lent to transpose alone; a struct would be taken apart at once.
ghost use Rattle.std.specs.Prelude.{◌≡◌, ◌&&◌, map, length};
ghost use Rattle.lists.specs.Entries.{row_of, col_of, val_of};
ghost use Rattle.refusals.specs.Refusals.{answer_if, left_in};
ghost use Rattle.sparse.specs.Sparse.{entries as entries_of};
ghost use Rattle.sparse.specs.Checks.{bounded as bounded_of, entries_fit};
ghost use Rattle.adjoint.specs.Transposes.{transposed};
ghost use Rattle.adjoint.specs.Checks.{transpose_check};

use lists::inner::copy;
use refusals::{Refusal, refuse_unless, room_for};
use sparse::Entries;
use sparse::inner::bounded;

fn transpose_fits(dim: usize, entries: &Entries<'_>) -> bool
    ensures { result ≡ bounded_of dim 0 && entries_fit dim entries.now.rows.now entries.now.cols.now entries.now.values.now }
{
    bounded(dim, 0) && entries.fit(dim)
}

fn transpose_check(
    dim: usize,
    entries: &Entries<'_>,
    out_rows: usize,
    out_cols: usize,
    out_values: usize,
) -> Result<(), Refusal>
    ensures { result ≡ transpose_check dim entries.now.rows.now entries.now.cols.now entries.now.values.now out_rows out_cols out_values }
{
    refuse_unless(transpose_fits(dim, entries), Refusal::BadLists)?;
    let count = entries.rows.len();
    room_for(count, out_rows)?;
    room_for(count, out_cols)?;
    room_for(count, out_values)
}

// It answers the count of entries.
pub fn transpose(
    dim: usize,
    entries: &Entries<'_>,
    out_rows: &mut [u32],
    out_cols: &mut [u32],
    out_values: &mut [f64],
) -> Result<u64, Refusal>
    ensures value { result ≡ answer_if (transpose_check dim entries.now.rows.now entries.now.cols.now entries.now.values.now (length out_rows.old) (length out_cols.old) (length out_values.old)) (length entries.now.rows.now) }
    ensures out_rows_after { out_rows.new ≡ left_in (transpose_check dim entries.now.rows.now entries.now.cols.now entries.now.values.now (length out_rows.old) (length out_cols.old) (length out_values.old)) (map row_of (transposed (entries_of entries.now.rows.now entries.now.cols.now entries.now.values.now))) out_rows.old }
    ensures out_cols_after { out_cols.new ≡ left_in (transpose_check dim entries.now.rows.now entries.now.cols.now entries.now.values.now (length out_rows.old) (length out_cols.old) (length out_values.old)) (map col_of (transposed (entries_of entries.now.rows.now entries.now.cols.now entries.now.values.now))) out_cols.old }
    ensures out_values_after { out_values.new ≡ left_in (transpose_check dim entries.now.rows.now entries.now.cols.now entries.now.values.now (length out_rows.old) (length out_cols.old) (length out_values.old)) (map val_of (transposed (entries_of entries.now.rows.now entries.now.cols.now entries.now.values.now))) out_values.old }
{
    transpose_check(
        dim,
        entries,
        out_rows.len(),
        out_cols.len(),
        out_values.len(),
    )?;
    copy(out_rows, entries.cols);
    copy(out_cols, entries.rows);
    copy(out_values, entries.values);
    Ok(entries.rows.len() as u64)
}
