// Which parameters and operands SOCWR has, over how many elements each ranges, the ids of elements, the unit scale.
#![tactic(auto)]

ghost use Rattle.std.specs.Prelude.{◌≡◌};
ghost use Rattle.std.specs.Option.{ok_or};
ghost use Rattle.refusals.specs.Refusals.{◌or_else◌, refuse_unless, answer_if};
ghost use Rattle.refusals.specs.declared.Refusal.TheVariants.{NotInSocWr};
ghost use Rattle.records.specs.Case.{case_check, case_network};
ghost use Rattle.interface.specs.Scales.{served_unit_scale};
ghost use Rattle.elements.specs.Lengths.{parameter_len, operand_len, parameter_len_check, operand_len_check};
ghost use Rattle.elements.specs.Ids.{element_id, id_check};

use inner::ids::{id_of, on_axis};
use inner::lengths::{operand_length, parameter_length};
use interface::{Axis, Operand, Parameter};
use record_check::check_records;
use records::Case;
use refusals::{Refusal, refuse_unless};

pub mod inner;

// An element's own number in the network, as its record says it; a constraint's is its index.
#[derive(Clone, Copy)]
pub enum ElementId {
    Bus(u32),
    Branch(u32),
    Generator(u32),
    Constraint(u64),
}

// Accepted records and a length; None is number 9.
fn length_if(case: Case<'_>, length: Option<usize>) -> Result<u64, Refusal>
    ensures { result ≡ case_check case.entry or_else ok_or length NotInSocWr }
{
    check_records(case)?;
    let length = length.ok_or(Refusal::NotInSocWr)?;
    Ok(length as u64)
}

// `parameter_len`.
// Kept: this and operand_len: one function over parameters and operands would begin with a match of two arms, these two bodies.
pub fn parameter_len(case: Case<'_>, parameter: Parameter) -> Result<u64, Refusal>
    ensures { result ≡ answer_if (parameter_len_check case.entry.n case.entry.m case.entry.k case.entry.s case.entry.bytes.now parameter) (parameter_len case.entry.n case.entry.m case.entry.k parameter) }
{
    length_if(case, parameter_length(case.n, case.m, case.k, parameter))
}

// `operand_len`.
pub fn operand_len(case: Case<'_>, operand: Operand) -> Result<u64, Refusal>
    ensures { result ≡ answer_if (operand_len_check case.entry.n case.entry.m case.entry.k case.entry.s case.entry.bytes.now operand) (operand_len case.entry.n case.entry.m case.entry.k operand) }
{
    length_if(case, operand_length(case.n, case.m, case.k, operand))
}

// The id of an element of an axis. The constraint axis answers every index.
pub fn element_id(case: Case<'_>, axis: Axis, index: usize) -> Result<ElementId, Refusal>
    ensures { result ≡ answer_if (id_check case.entry.n case.entry.m case.entry.k case.entry.s case.entry.bytes.now axis index) (element_id (case_network case.entry) axis index) }
{
    check_records(case)?;
    refuse_unless(
        on_axis(case.n, case.m, case.k, axis, index),
        Refusal::PastEnd(index as u64),
    )?;
    Ok(id_of(case, axis, index))
}

// `unit_scale`: the factor from per unit to served units.
pub fn unit_scale(operand: Operand, parameter: Parameter, base: f64) -> f64
    ensures { result ≡ served_unit_scale operand parameter base }
{
    interface::served_unit_scale(operand, parameter, base)
}
