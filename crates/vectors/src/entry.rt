// The entries that a call names, with the numbers and the float that it takes (docs/VECTORS.md, kind 2).
// Kept: entries by their numbers in both `new`: the file of kept answers names them so.

#[derive(Clone, Copy)]
pub(crate) enum Entry {
    UnitScale {
        operand: u64,
        parameter: u64,
        base: f64,
    },
    SelectorNew,
    MaxAbs,
    Residual {
        dim: u64,
        columns: u64,
        eps: f64,
    },
    Transpose {
        dim: u64,
    },
    SelectorMatrix {
        dim: u64,
    },
    Combine {
        mode: u64,
        dim: u64,
        columns: u64,
        sign: f64,
    },
    OfNetwork(NetworkEntry),
}

#[derive(Clone, Copy)]
pub(crate) enum NetworkEntry {
    ProgramP,
    ProgramQ,
    ProgramA,
    ProgramB,
    ReadingCheck,
    Prices,
    Objective { objective: u64, solver: f64 },
    KktEntries,
    ParameterLen { parameter: u64 },
    OperandLen { operand: u64 },
    ParameterJacobian { parameter: u64, index: u64 },
    OperandSelector { operand: u64 },
    ElementId { axis: u64, index: u64 },
}

impl Entry {
    pub(crate) fn new(entry: u64, numbers: [u64; 3], float: f64) -> Entry {
        let [a, b, c] = numbers;
        match entry {
            0 => Entry::UnitScale {
                operand: a,
                parameter: b,
                base: float,
            },
            1 => Entry::SelectorNew,
            2 => Entry::MaxAbs,
            3 => Entry::Residual {
                dim: a,
                columns: b,
                eps: float,
            },
            4 => Entry::Transpose { dim: a },
            5 => Entry::SelectorMatrix { dim: a },
            6 => Entry::Combine {
                mode: a,
                dim: b,
                columns: c,
                sign: float,
            },
            _ => Entry::OfNetwork(NetworkEntry::new(entry, a, b, float)),
        }
    }
}

impl NetworkEntry {
    // A number that names no entry is taken as the last one.
    fn new(entry: u64, a: u64, b: u64, float: f64) -> NetworkEntry {
        match entry {
            7 => NetworkEntry::ProgramP,
            8 => NetworkEntry::ProgramQ,
            9 => NetworkEntry::ProgramA,
            10 => NetworkEntry::ProgramB,
            11 => NetworkEntry::ReadingCheck,
            12 => NetworkEntry::Prices,
            13 => NetworkEntry::Objective {
                objective: a,
                solver: float,
            },
            14 => NetworkEntry::KktEntries,
            15 => NetworkEntry::ParameterLen { parameter: a },
            16 => NetworkEntry::OperandLen { operand: a },
            17 => NetworkEntry::ParameterJacobian {
                parameter: a,
                index: b,
            },
            18 => NetworkEntry::OperandSelector { operand: a },
            _ => NetworkEntry::ElementId { axis: a, index: b },
        }
    }
}
