// Records and numbering.
// Kept: counts and records side by side, and blocks as numbers: the C interface hands them over so.
ghost use Rattle.std.specs.Prelude.{◌≡◌};
ghost use Rattle.refusals.specs.Refusals.{answer_if, left_in};
ghost use Rattle.records.specs.Check.{check_of};
ghost use Rattle.records.specs.Network.{network_of};
ghost use Rattle.numbering.specs.Blocks.{key};
ghost use Rattle.numbering.specs.Numbering.{column_key, row_key, cone_lengths};
ghost use Rattle.numbering.specs.Layout.{layout_of};
ghost use Rattle.numbering.specs.Lookups.{new_layout, cones_check, cone_count};
ghost use Rattle.names.specs.Named.{column_named, row_named};
ghost use Rattle.lookups.specs.Lookups.{column_lookup, row_lookup};
ghost use Rattle.kernel.specs.Answers.{CheckedAnswer, WrittenAnswer, LookupAnswer, SizesAnswer, NameAnswer};

use kernel::numbers::{Name, Sizes};
use kernel::{Answer, numbers};

#[unsafe(no_mangle)]
pub extern "C" fn socwr_check_records(n: u64, m: u64, k: u64, s: u64, records: &[u8]) -> Answer
    ensures { CheckedAnswer (check_of n m k s records.now) result }
{
    numbers::socwr_check_records(n, m, k, s, records)
}

#[unsafe(no_mangle)]
pub extern "C" fn socwr_layout_new(n: u64, m: u64, k: u64, s: u64, records: &[u8]) -> Sizes
    ensures { SizesAnswer (new_layout n m k s records.now) (check_of n m k s records.now) (network_of n m k s records.now) result }
{
    numbers::socwr_layout_new(n, m, k, s, records)
}

#[unsafe(no_mangle)]
pub extern "C" fn socwr_column_number(
    n: u64,
    m: u64,
    k: u64,
    s: u64,
    records: &[u8],
    block: u64,
    index: u64,
) -> Answer
    ensures { LookupAnswer (column_lookup n m k s records.now (key block index 0)) result }
{
    numbers::socwr_column_number(n, m, k, s, records, block, index)
}

#[unsafe(no_mangle)]
pub extern "C" fn socwr_row_number(
    n: u64,
    m: u64,
    k: u64,
    s: u64,
    records: &[u8],
    block: u64,
    index: u64,
    place: u64,
) -> Answer
    ensures { LookupAnswer (row_lookup n m k s records.now (key block index place)) result }
{
    numbers::socwr_row_number(n, m, k, s, records, block, index, place)
}

#[unsafe(no_mangle)]
pub extern "C" fn socwr_column_name(
    n: u64,
    m: u64,
    k: u64,
    s: u64,
    records: &[u8],
    number: u64,
) -> Name
    ensures { NameAnswer column_key (column_named n m k s records.now number) result }
{
    numbers::socwr_column_name(n, m, k, s, records, number)
}

#[unsafe(no_mangle)]
pub extern "C" fn socwr_row_name(
    n: u64,
    m: u64,
    k: u64,
    s: u64,
    records: &[u8],
    number: u64,
) -> Name
    ensures { NameAnswer row_key (row_named n m k s records.now number) result }
{
    numbers::socwr_row_name(n, m, k, s, records, number)
}

#[unsafe(no_mangle)]
pub extern "C" fn socwr_cones(
    n: u64,
    m: u64,
    k: u64,
    s: u64,
    records: &[u8],
    lengths: &mut [u32],
) -> Answer
    ensures written_answer { WrittenAnswer (answer_if (cones_check (check_of n m k s records.now) (layout_of (network_of n m k s records.now)) lengths.old) (cone_count (layout_of (network_of n m k s records.now)))) result }
    ensures lengths_after { lengths.new ≡ left_in (cones_check (check_of n m k s records.now) (layout_of (network_of n m k s records.now)) lengths.old) (cone_lengths (network_of n m k s records.now)) lengths.old }
{
    numbers::socwr_cones(n, m, k, s, records, lengths)
}
