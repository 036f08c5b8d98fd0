// The name of a given row or column number.
ghost use Rattle.std.specs.Prelude.{◌≡◌, ◌<◌};
ghost use Rattle.numbering.specs.Numbering.{ColumnStands, nvar, RowStands, ncon};
ghost use Rattle.numbering.specs.Network.{grid};
ghost use Rattle.names.specs.Named.{column_named, row_named};

use crate::keys;
use numbering::inner::blocks;
use numbering::inner::tally::locate;
use numbering::{ColumnName, Network, Place, RowName, Tally};
use records::Case;
use refusals::{Refusal, refuse_unless};

// Kept: columns and rows have a function each; a trait over both would have these functions again, with laws to prove.
// Kept: a block is a number in what follows, as in numbering::inner::blocks.

// The name of column p of accepted records.
fn column_at(net: &Network<'_>, p: usize) -> ColumnName
    requires { p < nvar (grid net.now) }
    ensures { ColumnStands (grid net.now) p result }
{
    let sizes = blocks::column_sizes(net.layout);
    let Place { item: block, at } = blocks::block_of(&sizes, p);
    if block < blocks::COST {
        return keys::plain_column(block, at);
    }
    let g = locate(Tally::Piecewise, net.generators(), at);
    ColumnName::CostOf(g.item)
}

// The name of row p of accepted records.
fn row_at(net: &Network<'_>, p: usize) -> RowName
    requires { p < ncon (grid net.now) }
    ensures { RowStands (grid net.now) p result }
{
    let sizes = blocks::row_sizes(net.layout);
    let Place { item: block, at } = blocks::block_of(&sizes, p);
    if block < blocks::SEGMENT {
        return keys::plain_row(block, at);
    }
    if block == blocks::SEGMENT {
        let g = locate(Tally::Segments, net.generators(), at);
        return RowName::Segment(g.item, g.at);
    }
    if block == blocks::JABR {
        return RowName::Jabr(at / blocks::JABR_ROWS, at % blocks::JABR_ROWS);
    }
    let e = locate(Tally::Limited, net.branches(), at / blocks::THERMAL_ROWS);
    RowName::Thermal(e.item, at % blocks::THERMAL_ROWS)
}

pub fn column_name(case: Case<'_>, p: usize) -> Result<ColumnName, Refusal>
    ensures { result ≡ column_named case.entry.n case.entry.m case.entry.k case.entry.s case.entry.bytes.now p }
{
    let net = Network::new(case)?;
    refuse_unless(
        p < net.layout.column_count() as usize,
        Refusal::PastEnd(p as u64),
    )?;
    Ok(column_at(&net, p))
}

pub fn row_name(case: Case<'_>, p: usize) -> Result<RowName, Refusal>
    ensures { result ≡ row_named case.entry.n case.entry.m case.entry.k case.entry.s case.entry.bytes.now p }
{
    let net = Network::new(case)?;
    refuse_unless(
        p < net.layout.row_count() as usize,
        Refusal::PastEnd(p as u64),
    )?;
    Ok(row_at(&net, p))
}
