// Kind 1: a network and questions on it.
use crate::agree::UNWRITTEN;
use crate::input;
use crate::tally::Tally;
use kernel::Answer;
use kernel::numbers::{
    Name, Sizes, socwr_check_records, socwr_column_name, socwr_column_number, socwr_cones,
    socwr_layout_new, socwr_row_name, socwr_row_number,
};
use std::io;
use std::io::Read;

// No call of `cones` is lent more places.
const PLACES: usize = 1024;

#[derive(Clone, Copy)]
pub(crate) struct Counts {
    pub(crate) n: u64,
    pub(crate) m: u64,
    pub(crate) k: u64,
    pub(crate) s: u64,
}

#[derive(Drop)]
pub(crate) struct Network {
    pub(crate) counts: Counts,
    pub(crate) records: Vec<u8>,
}

enum Question {
    CheckRecords,
    LayoutNew,
    ColumnNumber { block: u64, index: u64 },
    RowNumber { block: u64, index: u64, place: u64 },
    ColumnName { number: u64 },
    RowName { number: u64 },
    Cones { lent: u64, place: u64 },
}

// What an entry answers, as words; what it does not say is 0.
#[derive(Clone, Copy, PartialEq, Eq)]
struct Results([u64; 8]);

impl From<Answer> for Results {
    fn from(a: Answer) -> Results {
        Results([a.number, a.value, 0, 0, 0, 0, 0, 0])
    }
}

impl From<Sizes> for Results {
    fn from(z: Sizes) -> Results {
        Results([
            z.number,
            z.value,
            z.n_eq,
            z.n_ineq,
            z.nvar,
            z.ncon,
            z.t,
            z.cost_columns,
        ])
    }
}

impl From<Name> for Results {
    fn from(a: Name) -> Results {
        Results([a.number, a.value, a.block, a.index, a.place, 0, 0, 0])
    }
}

impl Question {
    // A number that names no entry is taken as the last one.
    // Kept: entries by their numbers: the file of kept answers names them so.
    fn next(from: &mut impl Read) -> io::Result<Question> {
        let [entry, a, b, c] = input::words::<4>(from)?;
        Ok(match entry {
            0 => Question::CheckRecords,
            1 => Question::LayoutNew,
            2 => Question::ColumnNumber { block: a, index: b },
            3 => Question::RowNumber {
                block: a,
                index: b,
                place: c,
            },
            4 => Question::ColumnName { number: a },
            5 => Question::RowName { number: a },
            _ => Question::Cones { lent: a, place: b },
        })
    }

    // Kept: one match on an enum, an arm for each entry: no table and no flag, which a closure or dyn could take the place of.
    fn answer(self, network: &Network) -> Results {
        let Counts { n, m, k, s } = network.counts;
        let records = &network.records;
        match self {
            Question::CheckRecords => socwr_check_records(n, m, k, s, records).into(),
            Question::LayoutNew => socwr_layout_new(n, m, k, s, records).into(),
            Question::ColumnNumber { block, index } => {
                socwr_column_number(n, m, k, s, records, block, index).into()
            }
            Question::RowNumber {
                block,
                index,
                place,
            } => socwr_row_number(n, m, k, s, records, block, index, place).into(),
            Question::ColumnName { number } => {
                socwr_column_name(n, m, k, s, records, number).into()
            }
            Question::RowName { number } => socwr_row_name(n, m, k, s, records, number).into(),
            Question::Cones { lent, place } => cones(network, lent, place),
        }
    }
}

// What `place` holds after a call on `lent` places.
fn cones(network: &Network, lent: u64, place: u64) -> Results {
    let Counts { n, m, k, s } = network.counts;
    let mut out = [UNWRITTEN; PLACES];
    let lent = out.len().min(lent as usize);
    let a = socwr_cones(n, m, k, s, &network.records, &mut out[..lent]);
    let held = out.get(place as usize).map_or(0, |x| u64::from(*x));
    Results([a.number, a.value, held, 0, 0, 0, 0, 0])
}

pub(crate) fn replay(
    rt: &(impl Print + AllocGlobal),
    from: &mut impl Read,
    tally: &mut Tally,
) -> io::Result<()> {
    let [n, m, k, s, length, count] = input::words::<6>(from)?;
    let network = Network {
        counts: Counts { n, m, k, s },
        records: input::bytes(rt.alloc(), from, length)?,
    };
    for _ in 0..count {
        let got = Question::next(from)?.answer(&network);
        let want = Results(input::words(from)?);
        tally.count(rt, got == want)?;
    }
    Ok(())
}
