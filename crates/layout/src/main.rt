// Reads a network's records from standard input, and writes its blocks of rows: block, first row, rows; lastly the total.
#![tactic(auto)]

use numbering::SocWrLayout;
use numbering::inner::blocks::ROW_BLOCKS;
use readers::read_full;
use refusals::{Refusal, number_of, value_of};
use std::io;

// The blocks of rows in their order.
const BLOCKS: [&str; ROW_BLOCKS] = [
    "pbal", "qbal", "ohm_pf", "ohm_qf", "ohm_pt", "ohm_qt", "wub", "wlb", "pgub", "pglb", "qgub",
    "qglb", "angub", "anglb", "cost", "jabr", "thermal",
];

// Kept: a `Display` would have to stand in crate refusals, which prints nothing, for this one print.
fn refuse(rt: &impl Print, cause: Refusal) -> io::Result<()> {
    println!(rt; "refused {} {}", number_of(cause), value_of(cause))
}

fn found(rt: &impl Print, number: Result<u32, Refusal>) -> io::Result<()> {
    match number {
        Ok(n) => print!(rt; " {n}"),
        Err(_) => Ok(()),
    }
}

fn rows(rt: &impl Print, l: SocWrLayout) -> io::Result<()> {
    for (block, name) in BLOCKS.iter().enumerate() {
        print!(rt; "{name}")?;
        found(rt, input::first_row(l, block))?;
        found(rt, input::row_count(l, block))?;
        println!(rt)?;
    }
    print!(rt; "total")?;
    found(rt, input::first_row(l, ROW_BLOCKS))?;
    println!(rt)
}

fn main(rt: HostRuntime) -> io::Result<()> {
    // Kept: the buffer is of fixed length, one byte more than is taken, so that input of any length is refused in fixed memory; a Vec would grow with it.
    let mut buffer = [0u8; 65537];
    let n = read_full(&mut rt.stdin(), &mut buffer)?;
    match input::layout_of(&buffer[..n]) {
        Ok(l) => rows(&rt, l),
        Err(cause) => refuse(&rt, cause),
    }
}
