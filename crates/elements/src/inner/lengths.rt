// Which parameters and operands SOCWR has, and over how many elements each ranges.
// Kept: n, m and k side by side in the lengths: the entries have them of a case that is not checked yet, columns and operands of a layout.
ghost use Rattle.std.specs.Prelude.{◌≡◌, cond, Some, None};
ghost use Rattle.elements.specs.Lengths.{has_parameter, has_voltage, has_operand, parameter_len, voltage_len, operand_len, asks_cost};

use interface::{Operand, Parameter, VoltageKind};

pub fn asks_cost(p: Parameter) -> bool
    ensures { result ≡ asks_cost p }
{
    match p {
        Parameter::Demand(_) => false,
        Parameter::Cost(_) => true,
        Parameter::LineLimit => false,
        Parameter::SeriesAdmittance(_) => false,
        Parameter::ShuntAdmittance(_) => false,
        Parameter::VoltageBound(_) => false,
        Parameter::GenBound { .. } => false,
        Parameter::Transformer(_) => false,
        Parameter::Switching => false,
        Parameter::ConstraintLimit => false,
    }
}

// None where SOCWR lacks the parameter.
pub fn parameter_length(n: usize, m: usize, k: usize, p: Parameter) -> Option<usize>
    ensures { result ≡ cond (has_parameter p) (Some (parameter_len n m k p)) None }
{
    match p {
        Parameter::Demand(_) => Some(n),
        Parameter::Cost(_) => Some(k),
        Parameter::LineLimit => Some(m),
        Parameter::SeriesAdmittance(_) => Some(m),
        Parameter::ShuntAdmittance(_) => Some(n),
        Parameter::VoltageBound(_) => Some(n),
        Parameter::GenBound { .. } => Some(k),
        Parameter::Transformer(_) => None,
        Parameter::Switching => None,
        Parameter::ConstraintLimit => None,
    }
}

fn voltage_length(n: usize, m: usize, kind: VoltageKind) -> Option<usize>
    ensures { result ≡ cond (has_voltage kind) (Some (voltage_len n m kind)) None }
{
    match kind {
        VoltageKind::Magnitude => None,
        VoltageKind::Angle => None,
        VoltageKind::Squared => Some(n),
        VoltageKind::ProductReal => Some(m),
        VoltageKind::ProductImag => Some(m),
    }
}

// None where SOCWR lacks the operand.
pub fn operand_length(n: usize, m: usize, k: usize, o: Operand) -> Option<usize>
    ensures { result ≡ cond (has_operand o) (Some (operand_len n m k o)) None }
{
    match o {
        Operand::Price(_) => Some(n),
        Operand::Dispatch(_) => Some(k),
        Operand::Flow { .. } => Some(m),
        Operand::Voltage(kind) => voltage_length(n, m, kind),
    }
}
