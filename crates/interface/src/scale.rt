// From per unit to served units.
ghost use Rattle.std.specs.Prelude.{◌≡◌};
ghost use Rattle.interface.specs.Scales.{operand_scale, parameter_scale, served_unit_scale};

use crate::{Operand, Parameter};

fn operand_served_scale(o: Operand, base: f64) -> f64
    ensures { result ≡ operand_scale o base }
{
    match o {
        Operand::Price(_) => 1.0 / base,
        Operand::Dispatch(_) => base,
        Operand::Flow { .. } => base,
        Operand::Voltage(_) => 1.0,
    }
}

fn parameter_served_scale(p: Parameter, base: f64) -> f64
    ensures { result ≡ parameter_scale p base }
{
    match p {
        Parameter::Demand(_) => base,
        Parameter::Cost(_) => 1.0,
        Parameter::LineLimit => base,
        Parameter::SeriesAdmittance(_) => 1.0,
        Parameter::ShuntAdmittance(_) => 1.0,
        Parameter::VoltageBound(_) => 1.0,
        Parameter::GenBound { .. } => base,
        Parameter::Transformer(_) => 1.0,
        Parameter::Switching => 1.0,
        Parameter::ConstraintLimit => base,
    }
}

// The factor from per unit to served units of an operand by a parameter, for every pair.
pub fn served_unit_scale(o: Operand, p: Parameter, base: f64) -> f64
    ensures { result ≡ served_unit_scale o p base }
{
    operand_served_scale(o, base) / parameter_served_scale(p, base)
}
