// The records that program `layout` is handed: their case, its layout, and its blocks of rows.
#![tactic(auto)]

ghost use Rattle.std.specs.Prelude.{◌≡◌, ◌≤◌};
ghost use Rattle.input.specs.Input.{run_of, CountsOf, input_layout, first_row, row_count};

use numbering::SocWrLayout;
use numbering::inner::blocks::ROW_BLOCKS;
use records::{Case, Kind, Records};
use refusals::{Refusal, refuse_unless};

// Kept: a kind is the byte's number here, as in `Record::kind` and in the definition `run_of`.
// How many records of the run are of this kind before the first that is not.
fn leading(run: Records<'_>, kind: u16) -> usize
    ensures value { result ≡ run_of run.entry.bytes.now kind run.entry.first run.entry.count }
    ensures upper_bound { result ≤ run.entry.count }
{
    for i in 0..run.count {
        if run.record(i).kind() != kind {
            return i;
        }
    }
    run.count
}

// The case of whole records: leading runs of kinds 1, 2, 3, and the rest.
pub fn case_in(b: &[u8]) -> Case<'_>
    ensures counts { CountsOf b.now result }
    ensures bytes { result.bytes.now ≡ b.now }
{
    let records = b.len() / 128;
    let n = leading(Records::new(b, 0, records), Kind::Bus as u16);
    let m = leading(Records::new(b, n, records - n), Kind::Branch as u16);
    let k = leading(
        Records::new(b, n + m, records - n - m),
        Kind::Generator as u16,
    );
    Case {
        n,
        m,
        k,
        s: records - n - m - k,
        bytes: b,
    }
}

// The layout of the input, at most 65,536 bytes long.
pub fn layout_of(b: &[u8]) -> Result<SocWrLayout, Refusal>
    ensures { result ≡ input_layout b.now }
{
    refuse_unless(b.len() <= 65536, Refusal::InputTooLong)?;
    SocWrLayout::new(case_in(b))
}

// Kept: first_row and row_count take a block's number, which may be past the last one: then they refuse it, and an enum would have no such block.
// The first row of a block; the one past the last starts where all rows end.
pub fn first_row(l: SocWrLayout, block: usize) -> Result<u32, Refusal>
    ensures { result ≡ first_row l block }
{
    l.cause()?;
    refuse_unless(block <= ROW_BLOCKS, Refusal::PastEnd(block as u64))?;
    Ok(l.row_start(block))
}

// How many rows a block has.
pub fn row_count(l: SocWrLayout, block: usize) -> Result<u32, Refusal>
    ensures { result ≡ row_count l block }
{
    l.cause()?;
    refuse_unless(block < ROW_BLOCKS, Refusal::PastEnd(block as u64))?;
    Ok(l.row_size(block))
}
