// Interface and combination.
// Kept: lists side by side, and codes as numbers: the C interface hands them over so.
ghost use Rattle.std.specs.Prelude.{◌≡◌, map, ◌*◌, length, Ok};
ghost use Rattle.lists.specs.Entries.{row_of, col_of, val_of};
ghost use Rattle.refusals.specs.Refusals.{answer_if, left_in};
ghost use Rattle.interface.specs.Codes.{parameter_at, operand_at, mode_at};
ghost use Rattle.interface.specs.Selectors.{unit_starts, unit_weights, selector_check};
ghost use Rattle.sparse.specs.Sparse.{entries, items_of};
ghost use Rattle.residual.specs.Magnitude.{max_abs};
ghost use Rattle.residual.specs.Residual.{residual as residual_of};
ghost use Rattle.residual.specs.Checks.{residual_check};
ghost use Rattle.adjoint.specs.Transposes.{transposed};
ghost use Rattle.adjoint.specs.Selectors.{selector_matrix};
ghost use Rattle.adjoint.specs.Checks.{transpose_check, matrix_check};
ghost use Rattle.kernel.specs.Answers.{WrittenAnswer};
ghost use Rattle.kernel.specs.Scalars.{ScalarAnswer};
ghost use Rattle.kernel.specs.Combinations.{scale_at, combine_check, combined};

use kernel::{Answer, Scalar, combinations};

#[unsafe(no_mangle)]
pub extern "C" fn socwr_unit_scale(operand: u64, parameter: u64, base: f64) -> Scalar
    ensures { ScalarAnswer (scale_at (operand_at operand) (parameter_at parameter) base) result }
{
    combinations::socwr_unit_scale(operand, parameter, base)
}

#[unsafe(no_mangle)]
pub extern "C" fn socwr_selector_new(
    from_rows: &[u32],
    from_elements: &[u32],
    starts: &mut [u32],
    rows: &mut [u32],
    weights: &mut [f64],
    elements: &mut [u32],
) -> Answer
    ensures written_answer { WrittenAnswer (answer_if (selector_check from_rows.now from_elements.now starts.old rows.old weights.old elements.old) (length from_rows.now)) result }
    ensures starts_after { starts.new ≡ left_in (selector_check from_rows.now from_elements.now starts.old rows.old weights.old elements.old) (unit_starts (length from_rows.now)) starts.old }
    ensures rows_after { rows.new ≡ left_in (selector_check from_rows.now from_elements.now starts.old rows.old weights.old elements.old) from_rows.now rows.old }
    ensures weights_after { weights.new ≡ left_in (selector_check from_rows.now from_elements.now starts.old rows.old weights.old elements.old) (unit_weights (length from_rows.now)) weights.old }
    ensures elements_after { elements.new ≡ left_in (selector_check from_rows.now from_elements.now starts.old rows.old weights.old elements.old) from_elements.now elements.old }
{
    combinations::socwr_selector_new(from_rows, from_elements, starts, rows, weights, elements)
}

#[unsafe(no_mangle)]
pub extern "C" fn socwr_max_abs(matrix: &[f64]) -> Scalar
    ensures { ScalarAnswer (Ok (max_abs matrix.now)) result }
{
    combinations::socwr_max_abs(matrix)
}

#[unsafe(no_mangle)]
pub extern "C" fn socwr_residual(
    dim: u64,
    columns: u64,
    rows: &[u32],
    cols: &[u32],
    values: &[f64],
    eps: f64,
    rhs: &[f64],
    answer: &[f64],
    out: &mut [f64],
) -> Answer
    ensures written_answer { WrittenAnswer (answer_if (residual_check dim columns rows.now cols.now values.now rhs.now answer.now (length out.old)) (dim * columns)) result }
    ensures out_after { out.new ≡ left_in (residual_check dim columns rows.now cols.now values.now rhs.now answer.now (length out.old)) (residual_of dim columns (entries rows.now cols.now values.now) eps rhs.now answer.now) out.old }
{
    combinations::socwr_residual(dim, columns, rows, cols, values, eps, rhs, answer, out)
}

#[unsafe(no_mangle)]
pub extern "C" fn socwr_transpose(
    dim: u64,
    rows: &[u32],
    cols: &[u32],
    values: &[f64],
    out_rows: &mut [u32],
    out_cols: &mut [u32],
    out_values: &mut [f64],
) -> Answer
    ensures written_answer { WrittenAnswer (answer_if (transpose_check dim rows.now cols.now values.now (length out_rows.old) (length out_cols.old) (length out_values.old)) (length rows.now)) result }
    ensures out_rows_after { out_rows.new ≡ left_in (transpose_check dim rows.now cols.now values.now (length out_rows.old) (length out_cols.old) (length out_values.old)) (map row_of (transposed (entries rows.now cols.now values.now))) out_rows.old }
    ensures out_cols_after { out_cols.new ≡ left_in (transpose_check dim rows.now cols.now values.now (length out_rows.old) (length out_cols.old) (length out_values.old)) (map col_of (transposed (entries rows.now cols.now values.now))) out_cols.old }
    ensures out_values_after { out_values.new ≡ left_in (transpose_check dim rows.now cols.now values.now (length out_rows.old) (length out_cols.old) (length out_values.old)) (map val_of (transposed (entries rows.now cols.now values.now))) out_values.old }
{
    combinations::socwr_transpose(dim, rows, cols, values, out_rows, out_cols, out_values)
}

#[unsafe(no_mangle)]
pub extern "C" fn socwr_selector_matrix(
    dim: u64,
    starts: &[u32],
    rows: &[u32],
    weights: &[f64],
    out: &mut [f64],
) -> Answer
    ensures written_answer { WrittenAnswer (answer_if (matrix_check dim starts.now rows.now weights.now (length out.old)) (dim * items_of starts.now)) result }
    ensures out_after { out.new ≡ left_in (matrix_check dim starts.now rows.now weights.now (length out.old)) (selector_matrix dim starts.now rows.now weights.now) out.old }
{
    combinations::socwr_selector_matrix(dim, starts, rows, weights, out)
}

#[unsafe(no_mangle)]
pub extern "C" fn socwr_combine(
    mode: u64,
    dim: u64,
    columns: u64,
    starts: &[u32],
    rows: &[u32],
    weights: &[f64],
    sign: f64,
    rhs: &[f64],
    solution: &[f64],
    out: &mut [f64],
) -> Answer
    ensures written_answer { WrittenAnswer (answer_if (combine_check (mode_at mode) mode dim columns starts.now rows.now weights.now rhs.now solution.now (length out.old)) (items_of starts.now * columns)) result }
    ensures out_after { out.new ≡ left_in (combine_check (mode_at mode) mode dim columns starts.now rows.now weights.now rhs.now solution.now (length out.old)) (combined (mode_at mode) dim columns starts.now rows.now weights.now sign rhs.now solution.now) out.old }
{
    combinations::socwr_combine(
        mode, dim, columns, starts, rows, weights, sign, rhs, solution, out,
    )
}
