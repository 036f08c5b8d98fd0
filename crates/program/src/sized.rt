// P, q, A and b of an accepted network, into lent lists.
ghost use Rattle.std.specs.Prelude.{◌≡◌, length};
ghost use Rattle.refusals.specs.Refusals.{◌or_else◌, room_for as room_of, passed};
ghost use Rattle.numbering.specs.Network.{grid};
ghost use Rattle.rows.specs.Program.{linear, matrix};
ghost use Rattle.matrix.specs.Lists.{right_side, quadratic_matrix};
ghost use Rattle.assembly.specs.Parts.{most_a};
ghost use Rattle.program.specs.Answered.{FloatsWritten, ListsWritten};

use assembly::inner::{count_a, fill_a};
use cells::Compressed;
use numbering::Network;
use quadratic::inner::linear::fill_q;
use quadratic::inner::{count_p, fill_p};
use refusals::{Refusal, room_for};
use sides::inner::fill_b;

pub(crate) fn put_b(b: &mut [f64], net: &Network<'_>) -> Result<u64, Refusal>
    ensures { FloatsWritten passed (right_side (grid net.now)) b.old b.new result }
{
    let need = net.layout.row_count() as usize;
    // Kept: a test, no `room_for`: that just the length needed is taken is shown by an edit of the test.
    if b.len() < need {
        return Err(Refusal::OutputTooShort(need as u64));
    }
    fill_b(b, net);
    Ok(need as u64)
}

pub(crate) fn put_q(q: &mut [f64], net: &Network<'_>) -> Result<u64, Refusal>
    ensures { FloatsWritten passed (linear (grid net.now)) q.old q.new result }
{
    let need = net.layout.column_count() as usize;
    room_for(need, q.len())?;
    fill_q(q, net);
    Ok(need as u64)
}

// Whether the lists of rows and of values have room for so many entries.
fn entries_room(count: usize, lists: &Compressed<'_>) -> Result<(), Refusal>
    ensures { result ≡ room_of count (length lists.now.rows.now) or_else room_of count (length lists.now.values.now) }
{
    room_for(count, lists.rows.len())?;
    room_for(count, lists.values.len())
}

pub(crate) fn put_p(lists: &mut Compressed<'_>, net: &Network<'_>) -> Result<u64, Refusal>
    ensures { ListsWritten passed (quadratic_matrix (grid net.now)) lists.old lists.new result }
{
    room_for(net.layout.column_count() as usize + 1, lists.starts.len())?;
    entries_room(count_p(net), lists)?;
    let written = fill_p(lists, net);
    Ok(written as u64)
}

fn most(net: &Network<'_>) -> usize
    ensures { result ≡ most_a net.now.layout }
{
    let l = net.layout;
    4 * l.n + 34 * l.m + 6 * l.k + 2 * l.s
}

// Counted before it is written, unless the lists have room for the most entries that A can have.
pub(crate) fn put_a(lists: &mut Compressed<'_>, net: &Network<'_>) -> Result<u64, Refusal>
    ensures { ListsWritten passed (matrix (grid net.now)) lists.old lists.new result }
{
    room_for(net.layout.column_count() as usize + 1, lists.starts.len())?;
    if entries_room(most(net), lists).is_err() {
        entries_room(count_a(net), lists)?;
    }
    let written = fill_a(lists, net);
    Ok(written as u64)
}
