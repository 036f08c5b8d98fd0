// The prices of a solution.
ghost use Rattle.std.specs.Prelude.{◌≡◌, ◌+◌, length};
ghost use Rattle.refusals.specs.Refusals.{answer_if, left_in};
ghost use Rattle.records.specs.Case.{case_network};
ghost use Rattle.numbering.specs.Network.{grid};
ghost use Rattle.reading.specs.Reading.{prices_cause, prices_check, price_list};

use crate::inner::fill;
use numbering::Network;
use records::Case;
use refusals::{Refusal, room_for};
use solution::inner::z_cause;

// 6 of z, 10.
fn prices_cause(net: &Network<'_>, zs: usize, room: usize) -> Result<(), Refusal>
    ensures { result ≡ prices_cause (grid net.now) zs room }
{
    let n = net.layout.n;
    let need = n + n;
    z_cause(net, zs)?;
    room_for(need, room)
}

// The prices of an accepted network.
fn prices_of(net: &Network<'_>, z: &[f64], prices: &mut [f64]) -> Result<u64, Refusal>
    ensures value { result ≡ answer_if (prices_cause (grid net.now) (length z.now) (length prices.old)) (net.now.layout.n + net.now.layout.n) }
    ensures prices_after { prices.new ≡ left_in (prices_cause (grid net.now) (length z.now) (length prices.old)) (price_list (grid net.now) z.now) prices.old }
{
    prices_cause(net, z.len(), prices.len())?;
    let l = net.layout;
    let active = l.pbal_row(0) as usize;
    let reactive = l.qbal_row(0) as usize;
    fill::negate_both(l.n, active, reactive, z, prices);
    Ok((l.n + l.n) as u64)
}

// The active prices to the first n places, the reactive prices to the next n.
pub fn prices(case: Case<'_>, z: &[f64], prices: &mut [f64]) -> Result<u64, Refusal>
    ensures value { result ≡ answer_if (prices_check case.entry.n case.entry.m case.entry.k case.entry.s case.entry.bytes.now z.now (length prices.old)) (case.entry.n + case.entry.n) }
    ensures prices_after { prices.new ≡ left_in (prices_check case.entry.n case.entry.m case.entry.k case.entry.s case.entry.bytes.now z.now (length prices.old)) (price_list (case_network case.entry) z.now) prices.old }
{
    let net = Network::new(case)?;
    prices_of(&net, z, prices)
}
