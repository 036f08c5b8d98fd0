// P, q, A and b of the SOCWR program (the Rust's `ProgramBuilder` and `assemble_conic_opf`), from counts and records.
#![tactic(auto)]

ghost use Rattle.records.specs.Case.{case_check, case_network};
ghost use Rattle.rows.specs.Program.{linear, matrix};
ghost use Rattle.matrix.specs.Lists.{right_side, quadratic_matrix};
ghost use Rattle.program.specs.Answered.{FloatsWritten, ListsWritten};

use cells::Compressed;
use numbering::Network;
use records::Case;
use refusals::Refusal;

mod sized;

// Kept: P and A, and b and q, are an entry each: each has its own definition and its own writer, and their bodies are two lines.

// b: ncon floats.
pub fn program_b(case: Case<'_>, b: &mut [f64]) -> Result<u64, Refusal>
    ensures { FloatsWritten (case_check case.entry) (right_side (case_network case.entry)) b.old b.new result }
{
    let net = Network::new(case)?;
    sized::put_b(b, &net)
}

// q: nvar floats.
pub fn program_q(case: Case<'_>, q: &mut [f64]) -> Result<u64, Refusal>
    ensures { FloatsWritten (case_check case.entry) (linear (case_network case.entry)) q.old q.new result }
{
    let net = Network::new(case)?;
    sized::put_q(q, &net)
}

// P by compressed columns: nvar + 1 starts, and the rows and values of its entries.
pub fn program_p(case: Case<'_>, lists: &mut Compressed<'_>) -> Result<u64, Refusal>
    ensures { ListsWritten (case_check case.entry) (quadratic_matrix (case_network case.entry)) lists.old lists.new result }
{
    let net = Network::new(case)?;
    sized::put_p(lists, &net)
}

// A by compressed columns: nvar + 1 starts, and the rows and values of its entries, rows ascending in a column.
pub fn program_a(case: Case<'_>, lists: &mut Compressed<'_>) -> Result<u64, Refusal>
    ensures { ListsWritten (case_check case.entry) (matrix (case_network case.entry)) lists.old lists.new result }
{
    let net = Network::new(case)?;
    sized::put_a(lists, &net)
}
