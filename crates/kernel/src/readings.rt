// Reading.
// Kept: counts and records side by side, and an objective as a number: the C interface hands them over so.
ghost use Rattle.std.specs.Prelude.{◌≡◌, ◌+◌, length};
ghost use Rattle.refusals.specs.Refusals.{answer_if, left_in};
ghost use Rattle.records.specs.Network.{network_of};
ghost use Rattle.reading.specs.Reading.{reading_check, prices_check, price_list, code_answer};
ghost use Rattle.kernel.specs.Answers.{CheckedAnswer, WrittenAnswer};
ghost use Rattle.kernel.specs.Scalars.{ScalarAnswer};

use crate::{Answer, Scalar, case_of};

pub fn socwr_reading_check(
    n: u64,
    m: u64,
    k: u64,
    s: u64,
    records: &[u8],
    x: &[f64],
    z: &[f64],
) -> Answer
    ensures { CheckedAnswer (reading_check n m k s records.now x.now z.now) result }
{
    let case = case_of(n, m, k, s, records);
    Answer::from(reading::reading_check(case, x, z))
}

pub fn socwr_prices(
    n: u64,
    m: u64,
    k: u64,
    s: u64,
    records: &[u8],
    z: &[f64],
    prices: &mut [f64],
) -> Answer
    ensures written_answer { WrittenAnswer (answer_if (prices_check n m k s records.now z.now (length prices.old)) (n + n)) result }
    ensures prices_after { prices.new ≡ left_in (prices_check n m k s records.now z.now (length prices.old)) (price_list (network_of n m k s records.now) z.now) prices.old }
{
    let case = case_of(n, m, k, s, records);
    Answer::from(reading::prices(case, z, prices))
}

pub fn socwr_objective(
    n: u64,
    m: u64,
    k: u64,
    s: u64,
    records: &[u8],
    objective: u64,
    x: &[f64],
    solver: f64,
) -> Scalar
    ensures { ScalarAnswer (code_answer n m k s records.now objective x.now solver) result }
{
    let case = case_of(n, m, k, s, records);
    Scalar::from(reading::objective_of_code(case, objective, x, solver))
}
