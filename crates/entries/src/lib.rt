// The entries of the KKT matrix, written to three lent lists.
#![tactic(auto)]

mod whole;

ghost use Rattle.std.specs.Prelude.{◌≡◌, length};
ghost use Rattle.records.specs.Case.{case_network};
ghost use Rattle.numbering.specs.Network.{grid};
ghost use Rattle.kkt.specs.Kkt.{kkt};
ghost use Rattle.demand3.specs.Demand3.{entry_bound, Demanded};
ghost use Rattle.refusals.specs.Refusals.{◌or_else◌};
ghost use Rattle.solution.specs.Lengths.{solution_cause};
ghost use Rattle.entries.specs.Answer.{room_cause, kkt_check, ListAnswered};

use complementarity::Point;
use lists::Triplets;
use numbering::Network;
use records::Case;
use refusals::{Refusal, room_for};
use solution::inner::solution_cause;

fn most(net: &Network<'_>) -> usize
    ensures { result ≡ entry_bound net.now.layout }
{
    let l = net.layout;
    10 * l.n + 17 * l.k + 82 * l.m + 5 * l.s + 26 * l.t
}

// 10: the first list that is too short.
fn room_cause(need: usize, list: &Triplets<'_>) -> Result<(), Refusal>
    ensures { result ≡ room_cause need list.now.rows.now list.now.cols.now list.now.vals.now }
{
    room_for(need, list.rows.len())?;
    room_for(need, list.cols.len())?;
    room_for(need, list.vals.len())
}

// Whether the lists hold all entries. The most that there can be need no count.
fn kkt_room(p: &Point<'_>, list: &Triplets<'_>) -> Result<(), Refusal>
    ensures { result ≡ room_cause (length (kkt (grid p.now.net) p.now.x.now p.now.z.now)) list.now.rows.now list.now.cols.now list.now.vals.now }
{
    if room_cause(most(&p.net), list).is_ok() {
        return Ok(());
    }
    room_cause(whole::kkt_count(p), list)
}

// From the front of the lists on.
fn kkt_written(p: &Point<'_>, list: &mut Triplets<'_>) -> Result<u64, Refusal>
    ensures { ListAnswered (room_cause (length (kkt (grid p.now.net) p.now.x.now p.now.z.now)) list.old.rows.now list.old.cols.now list.old.vals.now) (kkt (grid p.now.net) p.now.x.now p.now.z.now) list.old list.new result }
{
    kkt_room(p, list)?;
    list.at = 0;
    whole::put_kkt(list, p);
    Ok(list.at as u64)
}

// Kept: x and z beside the network here, and beside the case in kkt_entries, no point: they are lent of any length, asked for here.
fn kkt_checked(
    net: &Network<'_>,
    x: &[f64],
    z: &[f64],
    list: &mut Triplets<'_>,
) -> Result<u64, Refusal>
    ensures { ListAnswered (solution_cause (grid net.now) (length x.now) (length z.now) or_else room_cause (length (kkt (grid net.now) x.now z.now)) list.old.rows.now list.old.cols.now list.old.vals.now) (kkt (grid net.now) x.now z.now) list.old list.new result }
{
    solution_cause(net, x.len(), z.len())?;
    let p = Point { net: *net, x, z };
    kkt_written(&p, list)
}

// The entries of the KKT matrix in the order of `ConicKkt::new`, from the front of the lists on.
pub fn kkt_entries(
    case: Case<'_>,
    x: &[f64],
    z: &[f64],
    list: &mut Triplets<'_>,
) -> Result<u64, Refusal>
    ensures answered { ListAnswered (kkt_check case.entry.n case.entry.m case.entry.k case.entry.s case.entry.bytes.now x.now z.now list.old.rows.now list.old.cols.now list.old.vals.now) (kkt (case_network case.entry) x.now z.now) list.old list.new result }
    ensures demanded { Demanded case.entry.n case.entry.m case.entry.k case.entry.s case.entry.bytes.now x.now z.now }
{
    let net = Network::new(case)?;
    kkt_checked(&net, x, z, list)
}
