// Replays the kept answers of the Rust (docs/VECTORS.md) and says how many agree.
#![tactic(auto)]

mod agree;
mod answers;
mod calls;
mod entry;
mod input;
mod networks;
mod tally;

use calls::Call;
use input::next;
use std::io;
use std::io::Read;
use tally::Tally;

// What a case is, by the word before it.
enum Kind {
    Network,
    Call,
    End,
}

impl From<u64> for Kind {
    // A kind that is not known ends the replay.
    // Kept: kinds by their numbers: the file of kept answers names them so.
    fn from(word: u64) -> Kind {
        match word {
            1 => Kind::Network,
            2 => Kind::Call,
            _ => Kind::End,
        }
    }
}

// The cases up to kind 0. A proved loop has to end, so the turns are counted.
fn replay(rt: &(impl Print + AllocGlobal), from: &mut impl Read) -> io::Result<Tally> {
    let mut tally = Tally::default();
    for _ in 0..1_000_000 {
        match Kind::from(next::<u64>(from)?) {
            Kind::Network => {
                tally.begin();
                networks::replay(rt, from, &mut tally)?;
            }
            Kind::Call => {
                tally.begin();
                let call = Call::next(rt.alloc(), from)?;
                tally.count(rt, call.agrees(rt.alloc())?)?;
            }
            Kind::End => break,
        }
    }
    Ok(tally)
}

fn main(rt: HostRuntime) -> io::Result<()> {
    let mut from = rt.stdin();
    input::skip_head(&mut from)?;
    let tally = replay(&rt, &mut from)?;
    println!(rt; "{tally}")
}
