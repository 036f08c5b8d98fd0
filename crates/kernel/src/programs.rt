// The program P, q, A, b.
// Kept: counts and records, and starts, rows and values, side by side: the C interface hands them over so.
ghost use Rattle.std.specs.Prelude.{◌≡◌, map, length};
ghost use Rattle.lists.specs.Entries.{cell_row, cell_val};
ghost use Rattle.lists.specs.Compressed.{joined, starts_from};
ghost use Rattle.refusals.specs.Refusals.{answer_if, left_in};
ghost use Rattle.records.specs.Check.{check_of};
ghost use Rattle.records.specs.Network.{network_of};
ghost use Rattle.rows.specs.Program.{linear, matrix};
ghost use Rattle.matrix.specs.Lists.{right_side, quadratic_matrix};
ghost use Rattle.program.specs.Answered.{floats_check, columns_check};
ghost use Rattle.kernel.specs.Answers.{WrittenAnswer};

use crate::{Answer, case_of};
use cells::Compressed;

pub fn socwr_program_p(
    n: u64,
    m: u64,
    k: u64,
    s: u64,
    records: &[u8],
    starts: &mut [u32],
    rows: &mut [u32],
    values: &mut [f64],
) -> Answer
    ensures written_answer { WrittenAnswer (answer_if (columns_check (check_of n m k s records.now) (quadratic_matrix (network_of n m k s records.now)) starts.old rows.old values.old) (length (joined (quadratic_matrix (network_of n m k s records.now))))) result }
    ensures starts_after { starts.new ≡ left_in (columns_check (check_of n m k s records.now) (quadratic_matrix (network_of n m k s records.now)) starts.old rows.old values.old) (starts_from 0 (quadratic_matrix (network_of n m k s records.now))) starts.old }
    ensures rows_after { rows.new ≡ left_in (columns_check (check_of n m k s records.now) (quadratic_matrix (network_of n m k s records.now)) starts.old rows.old values.old) (map cell_row (joined (quadratic_matrix (network_of n m k s records.now)))) rows.old }
    ensures values_after { values.new ≡ left_in (columns_check (check_of n m k s records.now) (quadratic_matrix (network_of n m k s records.now)) starts.old rows.old values.old) (map cell_val (joined (quadratic_matrix (network_of n m k s records.now)))) values.old }
{
    let case = case_of(n, m, k, s, records);
    let mut lists = Compressed {
        starts,
        rows,
        values,
    };
    Answer::from(program::program_p(case, &mut lists))
}

pub fn socwr_program_q(n: u64, m: u64, k: u64, s: u64, records: &[u8], q: &mut [f64]) -> Answer
    ensures written_answer { WrittenAnswer (answer_if (floats_check (check_of n m k s records.now) (linear (network_of n m k s records.now)) q.old) (length (linear (network_of n m k s records.now)))) result }
    ensures q_after { q.new ≡ left_in (floats_check (check_of n m k s records.now) (linear (network_of n m k s records.now)) q.old) (linear (network_of n m k s records.now)) q.old }
{
    let case = case_of(n, m, k, s, records);
    Answer::from(program::program_q(case, q))
}

pub fn socwr_program_a(
    n: u64,
    m: u64,
    k: u64,
    s: u64,
    records: &[u8],
    starts: &mut [u32],
    rows: &mut [u32],
    values: &mut [f64],
) -> Answer
    ensures written_answer { WrittenAnswer (answer_if (columns_check (check_of n m k s records.now) (matrix (network_of n m k s records.now)) starts.old rows.old values.old) (length (joined (matrix (network_of n m k s records.now))))) result }
    ensures starts_after { starts.new ≡ left_in (columns_check (check_of n m k s records.now) (matrix (network_of n m k s records.now)) starts.old rows.old values.old) (starts_from 0 (matrix (network_of n m k s records.now))) starts.old }
    ensures rows_after { rows.new ≡ left_in (columns_check (check_of n m k s records.now) (matrix (network_of n m k s records.now)) starts.old rows.old values.old) (map cell_row (joined (matrix (network_of n m k s records.now)))) rows.old }
    ensures values_after { values.new ≡ left_in (columns_check (check_of n m k s records.now) (matrix (network_of n m k s records.now)) starts.old rows.old values.old) (map cell_val (joined (matrix (network_of n m k s records.now)))) values.old }
{
    let case = case_of(n, m, k, s, records);
    let mut lists = Compressed {
        starts,
        rows,
        values,
    };
    Answer::from(program::program_a(case, &mut lists))
}

pub fn socwr_program_b(n: u64, m: u64, k: u64, s: u64, records: &[u8], b: &mut [f64]) -> Answer
    ensures written_answer { WrittenAnswer (answer_if (floats_check (check_of n m k s records.now) (right_side (network_of n m k s records.now)) b.old) (length (right_side (network_of n m k s records.now)))) result }
    ensures b_after { b.new ≡ left_in (floats_check (check_of n m k s records.now) (right_side (network_of n m k s records.now)) b.old) (right_side (network_of n m k s records.now)) b.old }
{
    let case = case_of(n, m, k, s, records);
    Answer::from(program::program_b(case, b))
}
