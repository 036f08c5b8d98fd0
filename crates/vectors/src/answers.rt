// What an entry answers of a call.
use crate::agree::word_of;
use crate::calls::{Call, Reads, Writes};
use crate::entry::{Entry, NetworkEntry};
use crate::networks::{Counts, Network};
use kernel::combinations::{
    socwr_combine, socwr_max_abs, socwr_residual, socwr_selector_matrix, socwr_selector_new,
    socwr_transpose, socwr_unit_scale,
};
use kernel::kkt_matrix::socwr_kkt_entries;
use kernel::programs::{socwr_program_a, socwr_program_b, socwr_program_p, socwr_program_q};
use kernel::readings::{socwr_objective, socwr_prices, socwr_reading_check};
use kernel::sens::{
    Selector, socwr_element_id, socwr_operand_len, socwr_operand_selector,
    socwr_parameter_jacobian, socwr_parameter_len,
};
use kernel::{Answer, Scalar};

// Number, value and the word of the result.
#[derive(Clone, Copy, PartialEq, Eq)]
pub(crate) struct Answered {
    number: u64,
    value: u64,
    result: u64,
}

impl Answered {
    pub(crate) fn new(number: u64, value: u64, float: f64) -> Answered {
        Answered {
            number,
            value,
            result: word_of(float),
        }
    }
}

impl From<Answer> for Answered {
    fn from(a: Answer) -> Answered {
        Answered::new(a.number, a.value, 0.0)
    }
}

impl From<Scalar> for Answered {
    fn from(a: Scalar) -> Answered {
        Answered::new(a.number, a.value, a.result)
    }
}

impl From<Selector> for Answered {
    fn from(a: Selector) -> Answered {
        Answered::new(a.number, a.value, a.sign)
    }
}

impl Call {
    pub(crate) fn answer(&self, out: &mut Writes) -> Answered {
        let Reads { a, b, c, d, e } = &self.reads;
        let Writes { p, q, r, s } = out;
        match self.entry {
            Entry::UnitScale {
                operand,
                parameter,
                base,
            } => socwr_unit_scale(operand, parameter, base).into(),
            Entry::SelectorNew => socwr_selector_new(a, b, p, q, s, r).into(),
            Entry::MaxAbs => socwr_max_abs(c).into(),
            Entry::Residual { dim, columns, eps } => {
                socwr_residual(dim, columns, a, b, c, eps, d, e, s).into()
            }
            Entry::Transpose { dim } => socwr_transpose(dim, a, b, c, p, q, s).into(),
            Entry::SelectorMatrix { dim } => socwr_selector_matrix(dim, a, b, c, s).into(),
            Entry::Combine {
                mode,
                dim,
                columns,
                sign,
            } => socwr_combine(mode, dim, columns, a, b, c, sign, d, e, s).into(),
            Entry::OfNetwork(entry) => entry.answer(&self.network, c, d, out),
        }
    }
}

impl NetworkEntry {
    // Kept: one match on an enum, an arm for each entry: no table and no flag, which a closure or dyn could take the place of.
    fn answer(self, network: &Network, x: &[f64], z: &[f64], out: &mut Writes) -> Answered {
        let Counts { n, m, k, s } = network.counts;
        let records = &network.records;
        let Writes { p, q, r, s: floats } = out;
        match self {
            NetworkEntry::ProgramP => socwr_program_p(n, m, k, s, records, p, q, floats).into(),
            NetworkEntry::ProgramQ => socwr_program_q(n, m, k, s, records, floats).into(),
            NetworkEntry::ProgramA => socwr_program_a(n, m, k, s, records, p, q, floats).into(),
            NetworkEntry::ProgramB => socwr_program_b(n, m, k, s, records, floats).into(),
            NetworkEntry::ReadingCheck => socwr_reading_check(n, m, k, s, records, x, z).into(),
            NetworkEntry::Prices => socwr_prices(n, m, k, s, records, z, floats).into(),
            NetworkEntry::Objective { objective, solver } => {
                socwr_objective(n, m, k, s, records, objective, x, solver).into()
            }
            NetworkEntry::KktEntries => {
                socwr_kkt_entries(n, m, k, s, records, x, z, p, q, floats).into()
            }
            NetworkEntry::ParameterLen { parameter } => {
                socwr_parameter_len(n, m, k, s, records, parameter).into()
            }
            NetworkEntry::OperandLen { operand } => {
                socwr_operand_len(n, m, k, s, records, operand).into()
            }
            NetworkEntry::ParameterJacobian { parameter, index } => {
                socwr_parameter_jacobian(n, m, k, s, records, x, z, parameter, index, floats).into()
            }
            NetworkEntry::OperandSelector { operand } => {
                socwr_operand_selector(n, m, k, s, records, operand, p, q, floats, r).into()
            }
            NetworkEntry::ElementId { axis, index } => {
                socwr_element_id(n, m, k, s, records, axis, index).into()
            }
        }
    }
}
