// The entries of the KKT matrix.
// Kept: counts and records, and rows, columns and values, side by side: the C interface hands them over so.
ghost use Rattle.std.specs.Prelude.{◌≡◌, map, length};
ghost use Rattle.lists.specs.Entries.{row_of, col_of, val_of};
ghost use Rattle.refusals.specs.Refusals.{answer_if, left_in};
ghost use Rattle.records.specs.Network.{network_of};
ghost use Rattle.kkt.specs.Kkt.{kkt};
ghost use Rattle.demand3.specs.Demand3.{Demanded};
ghost use Rattle.entries.specs.Answer.{kkt_check};
ghost use Rattle.kernel.specs.Answers.{WrittenAnswer};

use crate::{Answer, case_of};
use lists::Triplets;

pub fn socwr_kkt_entries(
    n: u64,
    m: u64,
    k: u64,
    s: u64,
    records: &[u8],
    x: &[f64],
    z: &[f64],
    rows: &mut [u32],
    cols: &mut [u32],
    values: &mut [f64],
) -> Answer
    ensures written_answer { WrittenAnswer (answer_if (kkt_check n m k s records.now x.now z.now rows.old cols.old values.old) (length (kkt (network_of n m k s records.now) x.now z.now))) result }
    ensures rows_after { rows.new ≡ left_in (kkt_check n m k s records.now x.now z.now rows.old cols.old values.old) (map row_of (kkt (network_of n m k s records.now) x.now z.now)) rows.old }
    ensures cols_after { cols.new ≡ left_in (kkt_check n m k s records.now x.now z.now rows.old cols.old values.old) (map col_of (kkt (network_of n m k s records.now) x.now z.now)) cols.old }
    ensures values_after { values.new ≡ left_in (kkt_check n m k s records.now x.now z.now rows.old cols.old values.old) (map val_of (kkt (network_of n m k s records.now) x.now z.now)) values.old }
    ensures demanded { Demanded n m k s records.now x.now z.now }
{
    let case = case_of(n, m, k, s, records);
    let mut list = Triplets {
        rows,
        cols,
        vals: values,
        at: 0,
    };
    Answer::from(entries::kkt_entries(case, x, z, &mut list))
}
