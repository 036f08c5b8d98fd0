// The axis of an operand and of a parameter.
ghost use Rattle.std.specs.Prelude.{◌≡◌};
ghost use Rattle.interface.specs.Axes.{voltage_axis, operand_axis, parameter_axis};

use crate::{Axis, Operand, Parameter, VoltageKind};

impl VoltageKind {
    // The products of two voltages live on branches, the others on buses.
    fn axis(self) -> Axis
        ensures { result ≡ voltage_axis self }
    {
        match self {
            VoltageKind::Magnitude => Axis::Bus,
            VoltageKind::Angle => Axis::Bus,
            VoltageKind::Squared => Axis::Bus,
            VoltageKind::ProductReal => Axis::Branch,
            VoltageKind::ProductImag => Axis::Branch,
        }
    }
}

impl Operand {
    pub fn axis(self) -> Axis
        ensures { result ≡ operand_axis self }
    {
        match self {
            Operand::Price(_) => Axis::Bus,
            Operand::Dispatch(_) => Axis::Generator,
            Operand::Flow { .. } => Axis::Branch,
            Operand::Voltage(kind) => kind.axis(),
        }
    }
}

impl Parameter {
    pub fn axis(self) -> Axis
        ensures { result ≡ parameter_axis self }
    {
        match self {
            Parameter::Demand(_) => Axis::Bus,
            Parameter::Cost(_) => Axis::Generator,
            Parameter::LineLimit => Axis::Branch,
            Parameter::SeriesAdmittance(_) => Axis::Branch,
            Parameter::ShuntAdmittance(_) => Axis::Bus,
            Parameter::VoltageBound(_) => Axis::Bus,
            Parameter::GenBound { .. } => Axis::Generator,
            Parameter::Transformer(_) => Axis::Branch,
            Parameter::Switching => Axis::Branch,
            Parameter::ConstraintLimit => Axis::Constraint,
        }
    }
}
