// What a caller's code names.
// Kept: numbers for kinds in the four functions below, and decoding by hand: the C interface hands codes over as numbers.
ghost use Rattle.std.specs.Prelude.{◌≡◌};
ghost use Rattle.interface.specs.Codes.{parameter_at, operand_at, axis_at, mode_at};

use crate::{
    Axis, Bound, CostTerm, End, GB, Mode, Operand, Parameter, Power, TapKind, VoltageKind,
};

pub fn parameter_at(code: u64) -> Option<Parameter>
    ensures { result ≡ parameter_at code }
{
    match code {
        0 => Some(Parameter::Demand(Power::Active)),
        1 => Some(Parameter::Demand(Power::Reactive)),
        2 => Some(Parameter::Cost(CostTerm::Quadratic)),
        3 => Some(Parameter::Cost(CostTerm::Linear)),
        4 => Some(Parameter::LineLimit),
        5 => Some(Parameter::SeriesAdmittance(GB::Conductance)),
        6 => Some(Parameter::SeriesAdmittance(GB::Susceptance)),
        7 => Some(Parameter::ShuntAdmittance(GB::Conductance)),
        8 => Some(Parameter::ShuntAdmittance(GB::Susceptance)),
        9 => Some(Parameter::VoltageBound(Bound::Min)),
        10 => Some(Parameter::VoltageBound(Bound::Max)),
        11 => Some(Parameter::GenBound {
            power: Power::Active,
            bound: Bound::Min,
        }),
        12 => Some(Parameter::GenBound {
            power: Power::Active,
            bound: Bound::Max,
        }),
        13 => Some(Parameter::GenBound {
            power: Power::Reactive,
            bound: Bound::Min,
        }),
        14 => Some(Parameter::GenBound {
            power: Power::Reactive,
            bound: Bound::Max,
        }),
        15 => Some(Parameter::Transformer(TapKind::Ratio)),
        16 => Some(Parameter::Transformer(TapKind::PhaseShift)),
        17 => Some(Parameter::Switching),
        18 => Some(Parameter::ConstraintLimit),
        _ => None,
    }
}

pub fn operand_at(code: u64) -> Option<Operand>
    ensures { result ≡ operand_at code }
{
    match code {
        0 => Some(Operand::Price(Power::Active)),
        1 => Some(Operand::Price(Power::Reactive)),
        2 => Some(Operand::Dispatch(Power::Active)),
        3 => Some(Operand::Dispatch(Power::Reactive)),
        4 => Some(Operand::Flow {
            power: Power::Active,
            end: End::From,
        }),
        5 => Some(Operand::Flow {
            power: Power::Active,
            end: End::To,
        }),
        6 => Some(Operand::Flow {
            power: Power::Reactive,
            end: End::From,
        }),
        7 => Some(Operand::Flow {
            power: Power::Reactive,
            end: End::To,
        }),
        8 => Some(Operand::Voltage(VoltageKind::Magnitude)),
        9 => Some(Operand::Voltage(VoltageKind::Angle)),
        10 => Some(Operand::Voltage(VoltageKind::Squared)),
        11 => Some(Operand::Voltage(VoltageKind::ProductReal)),
        12 => Some(Operand::Voltage(VoltageKind::ProductImag)),
        _ => None,
    }
}

pub fn axis_at(code: u64) -> Option<Axis>
    ensures { result ≡ axis_at code }
{
    match code {
        0 => Some(Axis::Bus),
        1 => Some(Axis::Branch),
        2 => Some(Axis::Generator),
        3 => Some(Axis::Constraint),
        _ => None,
    }
}

// Kept: alike others by chance: a match on a code, as each of these.
pub fn mode_at(code: u64) -> Option<Mode>
    ensures { result ≡ mode_at code }
{
    match code {
        0 => Some(Mode::Forward),
        1 => Some(Mode::Adjoint),
        2 => Some(Mode::Auto),
        _ => None,
    }
}
