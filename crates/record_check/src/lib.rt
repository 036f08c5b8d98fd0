// The check of a network's records.
#![tactic(auto)]

ghost use Rattle.std.specs.Prelude.{◌≡◌, ◌+◌, ◌*◌, ◌≤◌, ◌<◌, min, length, IfOk};
ghost use Rattle.refusals.specs.Refusals.{◌or_else◌, answer_if};
ghost use Rattle.records.specs.Check.{bus_cause, branch_cause, gen_cause, segment_cause, first_cause, record_causes, count_sum, count_cause, length_cause, sum_cause};
ghost use Rattle.records.specs.Case.{case_check};
ghost use Rattle.record_check.specs.Counts.{limited_in, piecewise_in, costs_in, counted_in};

use record_causes::inner::{branch_cause, bus_cause, gen_cause, segment_cause};
use records::{Case, Records};
use refusals::{Refusal, refuse_unless};
use std::cmp;

// What the check counts as it passes the records: limited branches (T), piecewise generators (cost columns), and the limited branches before a
// given one.
#[derive(Clone, Copy)]
pub struct Counted {
    pub t: usize,
    pub cost_columns: usize,
    pub before: usize,
}

// Of the generators: how many are piecewise, and the sum of their counts.
#[derive(Clone, Copy)]
struct Costs {
    piecewise: usize,
    counts: usize,
}

// Kept: buses and segments have a loop each: one loop over an `impl Fn` would state in its contract what each call answers, which is longer.
// The first cause of a run of buses.
fn bus_causes(run: Records<'_>) -> Result<(), Refusal>
    ensures { result ≡ first_cause (bus_cause run.entry.bytes.now) run.entry.first run.entry.count }
{
    for i in 0..run.count {
        bus_cause(run.record(i))?;
    }
    Ok(())
}

// That of branches, or how many are limited.
fn branch_causes(n: usize, run: Records<'_>) -> Result<usize, Refusal>
    ensures value { result ≡ answer_if (first_cause (branch_cause n run.entry.bytes.now) run.entry.first run.entry.count) (limited_in run.entry.bytes.now run.entry.first run.entry.count) }
    ensures limited_le_count { IfOk result (λ limited. limited ≤ run.entry.count) }
{
    let mut limited = 0;
    for i in 0..run.count {
        let branch = run.record(i);
        branch_cause(n, branch)?;
        limited += usize::from(branch.thermal_limit_active());
    }
    Ok(limited)
}

// That of generators, or what their costs have.
fn gen_causes(n: usize, run: Records<'_>) -> Result<Costs, Refusal>
    requires { run.count ≤ 4096 }
    ensures { result ≡ answer_if (first_cause (gen_cause n run.entry.bytes.now) run.entry.first run.entry.count) (costs_in run.entry.bytes.now run.entry.first run.entry.count) }
{
    let mut piecewise = 0;
    let mut counts = 0;
    for i in 0..run.count {
        let generator = run.record(i);
        gen_cause(n, generator)?;
        piecewise += usize::from(generator.piecewise());
        counts += generator.count();
    }
    Ok(Costs { piecewise, counts })
}

// That of segments.
fn segment_causes(run: Records<'_>) -> Result<(), Refusal>
    ensures { result ≡ first_cause (segment_cause run.entry.bytes.now) run.entry.first run.entry.count }
{
    for i in 0..run.count {
        segment_cause(run.record(i))?;
    }
    Ok(())
}

// Kept: the counts come without records, since a layout's cause asks this too, and has none.
// 1: the first of n, m, k, S that is too large.
pub fn count_cause(n: usize, m: usize, k: usize, s: usize) -> Result<(), Refusal>
    ensures { result ≡ count_cause n m k s }
{
    refuse_unless(n <= 4096, Refusal::CountTooLarge(0))?;
    refuse_unless(m <= 8192, Refusal::CountTooLarge(1))?;
    refuse_unless(k <= 4096, Refusal::CountTooLarge(2))?;
    refuse_unless(s <= 65536, Refusal::CountTooLarge(3))
}

// All records, kind by kind, and lastly the sum of the counts; the branches before branch e apart.
fn record_causes(case: Case<'_>, e: usize) -> Result<Counted, Refusal>
    requires { (case.n ≤ 4096) × (case.m ≤ 8192) × (case.k ≤ 4096) × (case.s ≤ 65536) × (e ≤ case.m) × (length case.bytes.now ≡ 128 * (case.n + case.m + case.k + case.s)) }
    ensures { result ≡ answer_if (record_causes case.entry.n case.entry.m case.entry.k case.entry.bytes.now (case.entry.n + case.entry.m + case.entry.k + case.entry.s) or_else sum_cause case.entry.n case.entry.m case.entry.k case.entry.s case.entry.bytes.now) (counted_in case.entry.n case.entry.m case.entry.k case.entry.bytes.now e) }
{
    let Case { n, m, k, s, bytes } = case;
    bus_causes(Records::new(bytes, 0, n))?;
    let before = branch_causes(n, Records::new(bytes, n, e))?;
    let after = branch_causes(n, Records::new(bytes, n + e, m - e))?;
    let costs = gen_causes(n, Records::new(bytes, n + m, k))?;
    segment_causes(Records::new(bytes, n + m + k, s))?;
    let records = n + m + k + s;
    refuse_unless(costs.counts == s, Refusal::BadRecord(records as u64))?;
    Ok(Counted {
        t: before + after,
        cost_columns: costs.piecewise,
        before,
    })
}

// What is left of the check where the counts are in range.
fn check_counted(case: Case<'_>, e: usize) -> Result<Counted, Refusal>
    requires { (case.n ≤ 4096) × (case.m ≤ 8192) × (case.k ≤ 4096) × (case.s ≤ 65536) × (e ≤ case.m) }
    ensures { result ≡ answer_if (length_cause (case.entry.n + case.entry.m + case.entry.k + case.entry.s) case.entry.bytes.now or_else record_causes case.entry.n case.entry.m case.entry.k case.entry.bytes.now (case.entry.n + case.entry.m + case.entry.k + case.entry.s) or_else sum_cause case.entry.n case.entry.m case.entry.k case.entry.s case.entry.bytes.now) (counted_in case.entry.n case.entry.m case.entry.k case.entry.bytes.now e) }
{
    let length = case.bytes.len();
    refuse_unless(
        length == 128 * (case.n + case.m + case.k + case.s),
        Refusal::RecordsLength(length as u64),
    )?;
    record_causes(case, e)
}

// The check, with what it counts as it passes the records: the limited branches, the piecewise generators, and the limited branches before
// branch e.
pub fn check_counting(case: Case<'_>, e: usize) -> Result<Counted, Refusal>
    ensures { result ≡ answer_if (case_check case.entry) (counted_in case.entry.n case.entry.m case.entry.k case.entry.bytes.now (min e case.entry.m)) }
{
    count_cause(case.n, case.m, case.k, case.s)?;
    check_counted(case, cmp::min(e, case.m))
}

// The first cause in the order 1, 2, then record by record 3, 4, 5, lastly the sum of the counts.
pub fn check_records(case: Case<'_>) -> Result<(), Refusal>
    ensures { result ≡ case_check case.entry }
{
    check_counting(case, 0)?;
    Ok(())
}
