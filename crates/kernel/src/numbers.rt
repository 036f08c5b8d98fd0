// Records and numbering.
// Kept: counts and records side by side, blocks as numbers, and structs of a number and a value: the C interface hands them over so.
ghost use Rattle.std.specs.Prelude.{◌≡◌, Ok};
ghost use Rattle.refusals.specs.Refusals.{passed, answer_if, left_in};
ghost use Rattle.records.specs.Check.{check_of};
ghost use Rattle.records.specs.Network.{network_of};
ghost use Rattle.numbering.specs.Blocks.{key};
ghost use Rattle.numbering.specs.Numbering.{column_key, row_key, cone_lengths};
ghost use Rattle.numbering.specs.Layout.{layout_of};
ghost use Rattle.numbering.specs.Network.{grid};
ghost use Rattle.numbering.specs.Lookups.{new_layout, cones_check, cone_count};
ghost use Rattle.names.specs.Named.{column_named, row_named};
ghost use Rattle.lookups.specs.Lookups.{column_lookup, row_lookup};
ghost use Rattle.kernel.specs.Answers.{CheckedAnswer, WrittenAnswer, LookupAnswer, SizesAnswer, NoSizes, NameAnswer};

use crate::{Answer, case_of};
use lookups::numbers;
use names::{keys, named};
use numbering::{Key, Network};
use refusals::{Refusal, number_of, value_of};

#[repr(C)]
#[derive(Clone, Copy)]
pub struct Sizes {
    pub number: u64,
    pub value: u64,
    pub n_eq: u64,
    pub n_ineq: u64,
    pub nvar: u64,
    pub ncon: u64,
    pub t: u64,
    pub cost_columns: u64,
}

#[repr(C)]
#[derive(Clone, Copy)]
pub struct Name {
    pub number: u64,
    pub value: u64,
    pub block: u64,
    pub index: u64,
    pub place: u64,
}

pub fn socwr_check_records(n: u64, m: u64, k: u64, s: u64, records: &[u8]) -> Answer
    ensures { CheckedAnswer (check_of n m k s records.now) result }
{
    Answer::from(record_check::check_records(case_of(n, m, k, s, records)))
}

impl From<&Network<'_>> for Sizes {
    ghost from_gives = { λ net sizes. SizesAnswer (Ok net.now.layout) passed (grid net.now) sizes };

    fn from(net: &Network<'_>) -> Sizes {
        let l = net.layout;
        Sizes {
            number: 0,
            value: 0,
            n_eq: l.zero_rows() as u64,
            n_ineq: l.nonnegative_rows() as u64,
            nvar: l.column_count() as u64,
            ncon: l.row_count() as u64,
            t: l.t as u64,
            cost_columns: l.cost_columns as u64,
        }
    }
}

impl From<Refusal> for Sizes {
    ghost from_gives = { NoSizes };

    fn from(cause: Refusal) -> Sizes {
        Sizes {
            number: number_of(cause),
            value: value_of(cause),
            n_eq: 0,
            n_ineq: 0,
            nvar: 0,
            ncon: 0,
            t: 0,
            cost_columns: 0,
        }
    }
}

pub fn socwr_layout_new(n: u64, m: u64, k: u64, s: u64, records: &[u8]) -> Sizes
    ensures { SizesAnswer (new_layout n m k s records.now) (check_of n m k s records.now) (network_of n m k s records.now) result }
{
    match Network::new(case_of(n, m, k, s, records)) {
        Ok(net) => Sizes::from(&net),
        Err(cause) => Sizes::from(cause),
    }
}

pub fn socwr_column_number(
    n: u64,
    m: u64,
    k: u64,
    s: u64,
    records: &[u8],
    block: u64,
    index: u64,
) -> Answer
    ensures { LookupAnswer (column_lookup n m k s records.now (key block index 0)) result }
{
    let key = Key {
        block: block as usize,
        item: index as usize,
        place: 0,
    };
    Answer::from(numbers::column_number_at(case_of(n, m, k, s, records), key))
}

pub fn socwr_row_number(
    n: u64,
    m: u64,
    k: u64,
    s: u64,
    records: &[u8],
    block: u64,
    index: u64,
    place: u64,
) -> Answer
    ensures { LookupAnswer (row_lookup n m k s records.now (key block index place)) result }
{
    let key = Key {
        block: block as usize,
        item: index as usize,
        place: place as usize,
    };
    Answer::from(numbers::row_number_at(case_of(n, m, k, s, records), key))
}

impl From<Result<Key, Refusal>> for Name {
    ghost from_gives = { NameAnswer (λ x. x) };

    fn from(key: Result<Key, Refusal>) -> Name {
        match key {
            Ok(x) => Name {
                number: 0,
                value: 0,
                block: x.block as u64,
                index: x.item as u64,
                place: x.place as u64,
            },
            Err(cause) => Name {
                number: number_of(cause),
                value: value_of(cause),
                block: 0,
                index: 0,
                place: 0,
            },
        }
    }
}

pub fn socwr_column_name(n: u64, m: u64, k: u64, s: u64, records: &[u8], number: u64) -> Name
    ensures { NameAnswer column_key (column_named n m k s records.now number) result }
{
    let named = named::column_name(case_of(n, m, k, s, records), number as usize);
    Name::from(named.map(keys::column_key))
}

pub fn socwr_row_name(n: u64, m: u64, k: u64, s: u64, records: &[u8], number: u64) -> Name
    ensures { NameAnswer row_key (row_named n m k s records.now number) result }
{
    let named = named::row_name(case_of(n, m, k, s, records), number as usize);
    Name::from(named.map(keys::row_key))
}

pub fn socwr_cones(n: u64, m: u64, k: u64, s: u64, records: &[u8], lengths: &mut [u32]) -> Answer
    ensures written_answer { WrittenAnswer (answer_if (cones_check (check_of n m k s records.now) (layout_of (network_of n m k s records.now)) lengths.old) (cone_count (layout_of (network_of n m k s records.now)))) result }
    ensures lengths_after { lengths.new ≡ left_in (cones_check (check_of n m k s records.now) (layout_of (network_of n m k s records.now)) lengths.old) (cone_lengths (network_of n m k s records.now)) lengths.old }
{
    let case = case_of(n, m, k, s, records);
    Answer::from(numbering::cones::cones(case, lengths))
}
