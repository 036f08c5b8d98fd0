// The number of a name, on counts and records.
ghost use Rattle.std.specs.Prelude.{◌≡◌, ◌<◌, ltb, OnOk};
ghost use Rattle.refusals.specs.Refusals.{refuse_unless};
ghost use Rattle.refusals.specs.declared.Refusal.TheVariants.{PastEnd};
ghost use Rattle.numbering.specs.Blocks.{key};
ghost use Rattle.numbering.specs.Numbering.{column_key, row_key, cost_columns, cost_rows, jabr_rows, thermal_rows};
ghost use Rattle.numbering.specs.Network.{grid};
ghost use Rattle.lookups.specs.Lookups.{column_asked, row_asked, column_lookup, row_lookup};
ghost use Rattle.numbering.specs.declared.ColumnName.TheVariants.{CostOf};
ghost use Rattle.numbering.specs.declared.RowName.TheVariants.{Segment, Thermal};

use names::keys;
use numbering::inner::blocks;
use numbering::inner::tally::tally;
use numbering::{ColumnName, Key, Network, RowName, Tally};
use records::Case;
use refusals::{Refusal, refuse_unless};

// 7 where an index is not below the end.
#[tactic(auto, unfolding(refusals::specs::Refusals::refuse_unless))]
fn below(index: usize, end: usize) -> Result<(), Refusal>
    ensures value { result ≡ refuse_unless (ltb index end) (PastEnd index) }
    ensures in_range { OnOk result (index < end) }
{
    refuse_unless(index < end, Refusal::PastEnd(index as u64))
}

// Kept: columns and rows have a function each; a trait over both would have these functions again, with laws to prove.
// Kept: a block is a number, as in numbering::inner::blocks; `block < cost_columns` and `block < cost_rows` say which have one row or column a record.

// A column of one of the blocks whose records have one column each.
fn plain_column(net: &Network<'_>, x: Key) -> Result<Option<u32>, Refusal>
    requires { x.block < cost_columns }
    ensures { result ≡ column_asked (grid net.now) x }
{
    let sizes = blocks::column_sizes(net.layout);
    below(x.item, sizes[x.block])?;
    below(x.place, 1)?;
    Ok(Some(net.layout.column_at(x.block, x.item)))
}

// A row of one of the blocks whose records have one row each.
fn plain_row(net: &Network<'_>, x: Key) -> Result<Option<u32>, Refusal>
    requires { x.block < cost_rows }
    ensures { result ≡ row_asked (grid net.now) x }
{
    let sizes = blocks::row_sizes(net.layout);
    below(x.item, sizes[x.block])?;
    below(x.place, 1)?;
    Ok(Some(net.layout.row_at(x.block, x.item)))
}

// Kept: cost columns, segments and limits have a function each: what they test, count and number by differs.
// The cost column of generator g.
fn cost_column(net: &Network<'_>, g: usize, place: usize) -> Result<Option<u32>, Refusal>
    ensures { result ≡ column_asked (grid net.now) (key cost_columns g place) }
{
    below(g, net.layout.k)?;
    let generator = net.generator(g);
    if !generator.piecewise() {
        return Ok(None);
    }
    below(place, 1)?;
    let before = tally(Tally::Piecewise, net.generators().take(g));
    Ok(Some(net.layout.cost_column(before)))
}

// The row of a segment of generator g.
fn segment_row(net: &Network<'_>, g: usize, segment: usize) -> Result<Option<u32>, Refusal>
    ensures { result ≡ row_asked (grid net.now) (key cost_rows g segment) }
{
    below(g, net.layout.k)?;
    let generator = net.generator(g);
    if !generator.piecewise() {
        return Ok(None);
    }
    below(segment, generator.segments())?;
    let before = tally(Tally::Segments, net.generators().take(g));
    Ok(Some(net.layout.segment_row(before + segment)))
}

// A row of branch e's cone of four.
fn jabr_row(net: &Network<'_>, e: usize, place: usize) -> Result<Option<u32>, Refusal>
    ensures { result ≡ row_asked (grid net.now) (key jabr_rows e place) }
{
    below(e, net.layout.m)?;
    below(place, blocks::JABR_ROWS)?;
    Ok(Some(net.layout.jabr_row(e, place)))
}

// A row of branch e's two cones of three.
fn thermal_row(net: &Network<'_>, e: usize, place: usize) -> Result<Option<u32>, Refusal>
    ensures { result ≡ row_asked (grid net.now) (key thermal_rows e place) }
{
    below(e, net.layout.m)?;
    if !net.branch(e).thermal_limit_active() {
        return Ok(None);
    }
    below(place, blocks::THERMAL_ROWS)?;
    let before = tally(Tally::Limited, net.branches().take(e));
    Ok(Some(net.layout.thermal_row(before, place)))
}

// A column of accepted records, by block, record and place.
fn column_asked(net: &Network<'_>, x: Key) -> Result<Option<u32>, Refusal>
    ensures { result ≡ column_asked (grid net.now) x }
{
    if x.block < blocks::COST {
        return plain_column(net, x);
    }
    if x.block == blocks::COST {
        return cost_column(net, x.item, x.place);
    }
    Err(Refusal::PastEnd(x.block as u64))
}

// A row of accepted records, by block, record and place.
fn row_asked(net: &Network<'_>, x: Key) -> Result<Option<u32>, Refusal>
    ensures { result ≡ row_asked (grid net.now) x }
{
    if x.block < blocks::SEGMENT {
        return plain_row(net, x);
    }
    if x.block == blocks::SEGMENT {
        return segment_row(net, x.item, x.place);
    }
    if x.block == blocks::JABR {
        return jabr_row(net, x.item, x.place);
    }
    if x.block == blocks::THERMAL {
        return thermal_row(net, x.item, x.place);
    }
    Err(Refusal::PastEnd(x.block as u64))
}

// The number of a column by its block, its record and its place, which is 0.
pub fn column_number_at(case: Case<'_>, x: Key) -> Result<Option<u32>, Refusal>
    ensures { result ≡ column_lookup case.entry.n case.entry.m case.entry.k case.entry.s case.entry.bytes.now x }
{
    column_asked(&Network::new(case)?, x)
}

// The number of a row by its block, its record and its place.
pub fn row_number_at(case: Case<'_>, x: Key) -> Result<Option<u32>, Refusal>
    ensures { result ≡ row_lookup case.entry.n case.entry.m case.entry.k case.entry.s case.entry.bytes.now x }
{
    row_asked(&Network::new(case)?, x)
}

pub fn column_number(case: Case<'_>, name: ColumnName) -> Result<Option<u32>, Refusal>
    ensures { result ≡ column_lookup case.entry.n case.entry.m case.entry.k case.entry.s case.entry.bytes.now (column_key name) }
{
    column_number_at(case, keys::column_key(name))
}

pub fn row_number(case: Case<'_>, name: RowName) -> Result<Option<u32>, Refusal>
    ensures { result ≡ row_lookup case.entry.n case.entry.m case.entry.k case.entry.s case.entry.bytes.now (row_key name) }
{
    row_number_at(case, keys::row_key(name))
}

pub fn col_cost(case: Case<'_>, generator: usize) -> Result<Option<u32>, Refusal>
    ensures { result ≡ column_lookup case.entry.n case.entry.m case.entry.k case.entry.s case.entry.bytes.now (column_key (CostOf generator)) }
{
    column_number(case, ColumnName::CostOf(generator))
}

pub fn r_cost_segment(
    case: Case<'_>,
    generator: usize,
    segment: usize,
) -> Result<Option<u32>, Refusal>
    ensures { result ≡ row_lookup case.entry.n case.entry.m case.entry.k case.entry.s case.entry.bytes.now (row_key (Segment generator segment)) }
{
    row_number(case, RowName::Segment(generator, segment))
}

// Kept: r_sf and r_st are two of the Rust's names, each one call.
// The first row of the cone at a branch's from end, and at its to end.
pub fn r_sf(case: Case<'_>, e: usize) -> Result<Option<u32>, Refusal>
    ensures { result ≡ row_lookup case.entry.n case.entry.m case.entry.k case.entry.s case.entry.bytes.now (row_key (Thermal e 0)) }
{
    row_number(case, RowName::Thermal(e, 0))
}

pub fn r_st(case: Case<'_>, e: usize) -> Result<Option<u32>, Refusal>
    ensures { result ≡ row_lookup case.entry.n case.entry.m case.entry.k case.entry.s case.entry.bytes.now (row_key (Thermal e 3)) }
{
    row_number(case, RowName::Thermal(e, 3))
}
