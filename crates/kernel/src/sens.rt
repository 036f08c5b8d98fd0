// Columns by parameter, selectors of operands, lengths and ids.
// Kept: counts and records, lists side by side, codes as numbers, a number and a value as a struct: the C interface hands them over so.
ghost use Rattle.std.specs.Prelude.{◌≡◌, length};
ghost use Rattle.refusals.specs.Refusals.{answer_if, left_in};
ghost use Rattle.records.specs.Network.{network_of};
ghost use Rattle.interface.specs.Codes.{parameter_at, operand_at, axis_at};
ghost use Rattle.interface.specs.Selectors.{unit_starts, unit_weights, items_of};
ghost use Rattle.elements.specs.Lengths.{parameter_len, operand_len, parameter_len_check, operand_len_check};
ghost use Rattle.columns.specs.Jacobian.{dim, jacobian, jacobian_check};
ghost use Rattle.operands.specs.Selector.{operand_check, selector_rows, selector_elements, selector_sign};
ghost use Rattle.kernel.specs.Answers.{AnswerIs, WrittenAnswer, ElementAnswer};
ghost use Rattle.kernel.specs.Sens.{parameter_named, operand_named, id_at, SelectorAnswer};

use crate::{Answer, case_of};
use elements::ElementId;
use interface::{
    Axis, Items, Operand, Parameter, SelectorLists, VoltageKind, axis_at, operand_at, parameter_at,
};
use records::Case;
use refusals::{Refusal, number_of, value_of};

#[repr(C)]
#[derive(Clone, Copy)]
pub struct Selector {
    pub number: u64,
    pub value: u64,
    pub sign: f64,
}

// A code that names nothing is refused as one that SOCWR lacks.
// Kept: so in both functions it stands for one of those, no Option: the C entries' clauses say `parameter_named` and `operand_named`.
fn parameter_named(code: u64) -> Parameter
    ensures { result ≡ parameter_named (parameter_at code) }
{
    parameter_at(code).unwrap_or(Parameter::ConstraintLimit)
}

fn operand_named(code: u64) -> Operand
    ensures { result ≡ operand_named (operand_at code) }
{
    operand_at(code).unwrap_or(Operand::Voltage(VoltageKind::Magnitude))
}

// A selector's answer without its sign.
impl From<Result<Items, Refusal>> for Answer {
    ghost from_gives = { AnswerIs (λ items. items.count) };

    fn from(items: Result<Items, Refusal>) -> Answer {
        match items {
            Ok(items) => Answer {
                number: 0,
                value: items.count,
            },
            Err(cause) => Answer::from(cause),
        }
    }
}

impl From<Result<Items, Refusal>> for Selector {
    ghost from_gives = { SelectorAnswer };

    fn from(items: Result<Items, Refusal>) -> Selector {
        match items {
            Ok(Items { count, sign }) => Selector {
                number: 0,
                value: count,
                sign,
            },
            Err(cause) => Selector {
                number: number_of(cause),
                value: value_of(cause),
                sign: 0.0,
            },
        }
    }
}

pub fn socwr_parameter_len(n: u64, m: u64, k: u64, s: u64, records: &[u8], parameter: u64) -> Answer
    ensures { WrittenAnswer (answer_if (parameter_len_check n m k s records.now (parameter_named (parameter_at parameter))) (parameter_len n m k (parameter_named (parameter_at parameter)))) result }
{
    let p = parameter_named(parameter);
    Answer::from(elements::parameter_len(case_of(n, m, k, s, records), p))
}

pub fn socwr_operand_len(n: u64, m: u64, k: u64, s: u64, records: &[u8], operand: u64) -> Answer
    ensures { WrittenAnswer (answer_if (operand_len_check n m k s records.now (operand_named (operand_at operand))) (operand_len n m k (operand_named (operand_at operand)))) result }
{
    let o = operand_named(operand);
    Answer::from(elements::operand_len(case_of(n, m, k, s, records), o))
}

pub fn socwr_parameter_jacobian(
    n: u64,
    m: u64,
    k: u64,
    s: u64,
    records: &[u8],
    x: &[f64],
    z: &[f64],
    parameter: u64,
    index: u64,
    column: &mut [f64],
) -> Answer
    ensures written_answer { WrittenAnswer (answer_if (jacobian_check n m k s records.now (parameter_named (parameter_at parameter)) index (length x.now) (length z.now) (length column.old)) (dim (network_of n m k s records.now))) result }
    ensures column_after { column.new ≡ left_in (jacobian_check n m k s records.now (parameter_named (parameter_at parameter)) index (length x.now) (length z.now) (length column.old)) (jacobian (network_of n m k s records.now) x.now z.now (parameter_named (parameter_at parameter)) index) column.old }
{
    let p = parameter_named(parameter);
    let case = case_of(n, m, k, s, records);
    Answer::from(columns::parameter_jacobian(case, x, z, p, index as usize, column))
}

pub fn socwr_operand_selector(
    n: u64,
    m: u64,
    k: u64,
    s: u64,
    records: &[u8],
    operand: u64,
    starts: &mut [u32],
    rows: &mut [u32],
    weights: &mut [f64],
    elements: &mut [u32],
) -> Selector
    ensures selector_answer { SelectorAnswer (answer_if (operand_check n m k s records.now (operand_named (operand_at operand)) (length starts.old) (length rows.old) (length weights.old) (length elements.old)) (items_of (operand_len n m k (operand_named (operand_at operand))) (selector_sign (operand_named (operand_at operand))))) result }
    ensures starts_after { starts.new ≡ left_in (operand_check n m k s records.now (operand_named (operand_at operand)) (length starts.old) (length rows.old) (length weights.old) (length elements.old)) (unit_starts (operand_len n m k (operand_named (operand_at operand)))) starts.old }
    ensures rows_after { rows.new ≡ left_in (operand_check n m k s records.now (operand_named (operand_at operand)) (length starts.old) (length rows.old) (length weights.old) (length elements.old)) (selector_rows (network_of n m k s records.now) (operand_named (operand_at operand))) rows.old }
    ensures weights_after { weights.new ≡ left_in (operand_check n m k s records.now (operand_named (operand_at operand)) (length starts.old) (length rows.old) (length weights.old) (length elements.old)) (unit_weights (operand_len n m k (operand_named (operand_at operand)))) weights.old }
    ensures elements_after { elements.new ≡ left_in (operand_check n m k s records.now (operand_named (operand_at operand)) (length starts.old) (length rows.old) (length weights.old) (length elements.old)) (selector_elements (operand_len n m k (operand_named (operand_at operand)))) elements.old }
{
    let o = operand_named(operand);
    let case = case_of(n, m, k, s, records);
    let mut lists = SelectorLists {
        starts,
        rows,
        weights,
        elements,
    };
    Selector::from(operands::operand_selector(case, o, &mut lists))
}

// The id by an axis that the code names, or by none: the record check, then 7 with the code.
fn id_at(case: Case<'_>, axis: Option<Axis>, code: u64, index: usize) -> Result<ElementId, Refusal>
    ensures { result ≡ id_at case.entry.n case.entry.m case.entry.k case.entry.s case.entry.bytes.now axis code index }
{
    match axis {
        Some(axis) => elements::element_id(case, axis, index),
        None => {
            record_check::check_records(case)?;
            Err(Refusal::PastEnd(code))
        }
    }
}

pub fn socwr_element_id(
    n: u64,
    m: u64,
    k: u64,
    s: u64,
    records: &[u8],
    axis: u64,
    index: u64,
) -> Answer
    ensures { ElementAnswer (id_at n m k s records.now (axis_at axis) axis index) result }
{
    let case = case_of(n, m, k, s, records);
    Answer::from(id_at(case, axis_at(axis), axis, index as usize))
}
