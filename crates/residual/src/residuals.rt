// The residual pass of `solve_refined`: the right-hand side less the matrix times the answer.
ghost use Rattle.std.specs.Prelude.{◌≡◌, true, ◌*◌, ◌<◌, length};
ghost use Rattle.lists.specs.Entries.{entry};
ghost use Rattle.refusals.specs.Refusals.{answer_if, left_in};
ghost use Rattle.sparse.specs.Sparse.{entries as entries_of};
ghost use Rattle.sparse.specs.Checks.{entries_fit};
ghost use Rattle.residual.specs.Residual.{subtract_entry, subtract_column, subtract_entries, diagonal};
ghost use Rattle.residual.specs.Given.{system_fits, system_check, system_residual};

use crate::System;
use lists::inner::copy;
use refusals::{Refusal, refuse_unless, room_for};
use sparse::inner::bounded;
use sparse::{Dense, Entries};

// Kept: out and the answer apart, and the length that they share, in four functions: the inner loop would take a struct of both apart first.
// One entry's part in each column.
fn subtract_entry(out: &mut [f64], row: usize, col: usize, value: f64, answer: &Dense<'_>)
    requires { (row < answer.now.dim) × (col < answer.now.dim) × (length out.old ≡ answer.now.dim * answer.now.columns) }
    ensures { out.new ≡ subtract_entry answer.now.dim answer.now.columns answer.now.values.now (entry row col value) out.old }
{
    // Kept: by index, since of what is written through the chunks of chunks_exact_mut nothing is known afterwards.
    for c in 0..answer.columns {
        let base = c * answer.dim;
        let at = base + row;
        out[at] = out[at] - value * answer.values[base + col];
    }
}

// Every entry's part in column c.
fn subtract_column(out: &mut [f64], c: usize, entries: &Entries<'_>, answer: &Dense<'_>)
    requires { (entries_fit answer.now.dim entries.now.rows.now entries.now.cols.now entries.now.values.now ≡ true) × (c < answer.now.columns) × (length out.old ≡ answer.now.dim * answer.now.columns) }
    ensures { out.new ≡ subtract_column answer.now.dim answer.now.values.now (entries_of entries.now.rows.now entries.now.cols.now entries.now.values.now) c out.old }
{
    let Entries { rows, cols, values } = *entries;
    let base = c * answer.dim;
    // Kept: three lists are read at one place, and a zip of three names a pair in a pair.
    for j in 0..rows.len() {
        let at = base + rows[j] as usize;
        let from = base + cols[j] as usize;
        out[at] = out[at] - values[j] * answer.values[from];
    }
}

// Column by column: each element has its entries in their order, as by entries, and far fewer lines are touched at a time.
fn subtract_entries(out: &mut [f64], entries: &Entries<'_>, answer: &Dense<'_>)
    requires { (entries_fit answer.now.dim entries.now.rows.now entries.now.cols.now entries.now.values.now ≡ true) × (length out.old ≡ answer.now.dim * answer.now.columns) }
    ensures { out.new ≡ subtract_entries answer.now.dim answer.now.columns answer.now.values.now (entries_of entries.now.rows.now entries.now.cols.now entries.now.values.now) out.old }
{
    for c in 0..answer.columns {
        subtract_column(out, c, entries, answer);
    }
}

fn subtract_diagonal(out: &mut [f64], eps: f64, answer: &Dense<'_>)
    requires { length out.old ≡ answer.now.dim * answer.now.columns }
    ensures { out.new ≡ subtract_entries answer.now.dim answer.now.columns answer.now.values.now (diagonal answer.now.dim eps) out.old }
{
    for d in 0..answer.dim {
        subtract_entry(out, d, d, eps, answer);
    }
}

fn residual_into(out: &mut [f64], system: &System<'_>)
    requires { (system_fits system.now ≡ true) × (length out.old ≡ system.now.dim * system.now.columns) }
    ensures { (out.new ≡ system_residual system.now) × (length out.new ≡ system.now.dim * system.now.columns) }
{
    let answer = Dense {
        values: system.answer,
        dim: system.dim,
        columns: system.columns,
    };
    copy(out, system.rhs);
    subtract_entries(out, &system.entries, &answer);
    if system.eps != 0.0 {
        subtract_diagonal(out, system.eps, &answer);
    }
}

fn fits(system: &System<'_>) -> bool
    ensures { result ≡ system_fits system.now }
{
    if bounded(system.dim, system.columns) {
        let need = system.dim * system.columns;
        let a = system.rhs.len() == need;
        let b = system.answer.len() == need;
        return system.entries.fit(system.dim) & a & b;
    }
    false
}

fn check(system: &System<'_>, room: usize) -> Result<(), Refusal>
    ensures { result ≡ system_check system.now room }
{
    refuse_unless(fits(system), Refusal::BadLists)?;
    room_for(system.rhs.len(), room)
}

// The right-hand side less the matrix times the answer. It answers how many elements it wrote.
pub fn residual(system: &System<'_>, out: &mut [f64]) -> Result<u64, Refusal>
    ensures value { result ≡ answer_if (system_check system.now (length out.old)) (system.now.dim * system.now.columns) }
    ensures out_after { out.new ≡ left_in (system_check system.now (length out.old)) (system_residual system.now) out.old }
{
    check(system, out.len())?;
    let need = system.rhs.len();
    residual_into(&mut out[..need], system);
    Ok(need as u64)
}
