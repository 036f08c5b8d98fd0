// Whether a reading is refused.
ghost use Rattle.std.specs.Prelude.{◌≡◌, MatchResult, Err};
ghost use Rattle.reading.specs.Reading.{part_check, reading_check};
ghost use Rattle.reading.specs.Readable.{Readable};

use numbering::Network;
use records::Case;
use refusals::Refusal;
use solution::inner::{solution_cause, x_cause};

// The record check, then the lengths of x and z.
// Kept: x and z beside the case, here and in the other entries: they are lent of any length, and this is their test.
pub fn reading_check(case: Case<'_>, x: &[f64], z: &[f64]) -> Result<(), Refusal>
    ensures { result ≡ reading_check case.entry.n case.entry.m case.entry.k case.entry.s case.entry.bytes.now x.now z.now }
{
    let net = Network::new(case)?;
    solution_cause(&net, x.len(), z.len())
}

// The same without z, with the network: what refuses a part of x.
pub fn check_part<'a>(case: Case<'a>, x: &[f64]) -> Result<Network<'a>, Refusal>
    ensures { MatchResult result (Readable case.entry.n case.entry.m case.entry.k case.entry.s case.entry.bytes.now x.now) (λ cause. part_check case.entry.n case.entry.m case.entry.k case.entry.s case.entry.bytes.now x.now ≡ Err cause) }
{
    let net = Network::new(case)?;
    x_cause(&net, x.len())?;
    Ok(net)
}

// That check alone.
pub fn part_check(case: Case<'_>, x: &[f64]) -> Result<(), Refusal>
    ensures { result ≡ part_check case.entry.n case.entry.m case.entry.k case.entry.s case.entry.bytes.now x.now }
{
    check_part(case, x)?;
    Ok(())
}
