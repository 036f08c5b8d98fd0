// Columns by parameter, selectors of operands, lengths and ids.
// Kept: counts and records, and lists, side by side, and codes as numbers: the C interface hands them over so.
ghost use Rattle.std.specs.Prelude.{◌≡◌, length};
ghost use Rattle.refusals.specs.Refusals.{answer_if, left_in};
ghost use Rattle.records.specs.Network.{network_of};
ghost use Rattle.interface.specs.Codes.{parameter_at, operand_at, axis_at};
ghost use Rattle.interface.specs.Selectors.{unit_starts, unit_weights, items_of};
ghost use Rattle.elements.specs.Lengths.{parameter_len, operand_len, parameter_len_check, operand_len_check};
ghost use Rattle.columns.specs.Jacobian.{dim, jacobian, jacobian_check};
ghost use Rattle.operands.specs.Selector.{operand_check, selector_rows, selector_elements, selector_sign};
ghost use Rattle.kernel.specs.Answers.{WrittenAnswer, ElementAnswer};
ghost use Rattle.kernel.specs.Sens.{parameter_named, operand_named, id_at, SelectorAnswer};

use kernel::sens::Selector;
use kernel::{Answer, sens};

#[unsafe(no_mangle)]
pub extern "C" fn socwr_parameter_len(
    n: u64,
    m: u64,
    k: u64,
    s: u64,
    records: &[u8],
    parameter: u64,
) -> Answer
    ensures { WrittenAnswer (answer_if (parameter_len_check n m k s records.now (parameter_named (parameter_at parameter))) (parameter_len n m k (parameter_named (parameter_at parameter)))) result }
{
    sens::socwr_parameter_len(n, m, k, s, records, parameter)
}

#[unsafe(no_mangle)]
pub extern "C" fn socwr_operand_len(
    n: u64,
    m: u64,
    k: u64,
    s: u64,
    records: &[u8],
    operand: u64,
) -> Answer
    ensures { WrittenAnswer (answer_if (operand_len_check n m k s records.now (operand_named (operand_at operand))) (operand_len n m k (operand_named (operand_at operand)))) result }
{
    sens::socwr_operand_len(n, m, k, s, records, operand)
}

#[unsafe(no_mangle)]
pub extern "C" fn socwr_parameter_jacobian(
    n: u64,
    m: u64,
    k: u64,
    s: u64,
    records: &[u8],
    x: &[f64],
    z: &[f64],
    parameter: u64,
    index: u64,
    column: &mut [f64],
) -> Answer
    ensures written_answer { WrittenAnswer (answer_if (jacobian_check n m k s records.now (parameter_named (parameter_at parameter)) index (length x.now) (length z.now) (length column.old)) (dim (network_of n m k s records.now))) result }
    ensures column_after { column.new ≡ left_in (jacobian_check n m k s records.now (parameter_named (parameter_at parameter)) index (length x.now) (length z.now) (length column.old)) (jacobian (network_of n m k s records.now) x.now z.now (parameter_named (parameter_at parameter)) index) column.old }
{
    sens::socwr_parameter_jacobian(n, m, k, s, records, x, z, parameter, index, column)
}

#[unsafe(no_mangle)]
pub extern "C" fn socwr_operand_selector(
    n: u64,
    m: u64,
    k: u64,
    s: u64,
    records: &[u8],
    operand: u64,
    starts: &mut [u32],
    rows: &mut [u32],
    weights: &mut [f64],
    elements: &mut [u32],
) -> Selector
    ensures selector_answer { SelectorAnswer (answer_if (operand_check n m k s records.now (operand_named (operand_at operand)) (length starts.old) (length rows.old) (length weights.old) (length elements.old)) (items_of (operand_len n m k (operand_named (operand_at operand))) (selector_sign (operand_named (operand_at operand))))) result }
    ensures starts_after { starts.new ≡ left_in (operand_check n m k s records.now (operand_named (operand_at operand)) (length starts.old) (length rows.old) (length weights.old) (length elements.old)) (unit_starts (operand_len n m k (operand_named (operand_at operand)))) starts.old }
    ensures rows_after { rows.new ≡ left_in (operand_check n m k s records.now (operand_named (operand_at operand)) (length starts.old) (length rows.old) (length weights.old) (length elements.old)) (selector_rows (network_of n m k s records.now) (operand_named (operand_at operand))) rows.old }
    ensures weights_after { weights.new ≡ left_in (operand_check n m k s records.now (operand_named (operand_at operand)) (length starts.old) (length rows.old) (length weights.old) (length elements.old)) (unit_weights (operand_len n m k (operand_named (operand_at operand)))) weights.old }
    ensures elements_after { elements.new ≡ left_in (operand_check n m k s records.now (operand_named (operand_at operand)) (length starts.old) (length rows.old) (length weights.old) (length elements.old)) (selector_elements (operand_len n m k (operand_named (operand_at operand)))) elements.old }
{
    sens::socwr_operand_selector(
        n, m, k, s, records, operand, starts, rows, weights, elements,
    )
}

#[unsafe(no_mangle)]
pub extern "C" fn socwr_element_id(
    n: u64,
    m: u64,
    k: u64,
    s: u64,
    records: &[u8],
    axis: u64,
    index: u64,
) -> Answer
    ensures { ElementAnswer (id_at n m k s records.now (axis_at axis) axis index) result }
{
    sens::socwr_element_id(n, m, k, s, records, axis, index)
}
