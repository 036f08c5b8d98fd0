// The records of a network: what their bytes say.
#![tactic(auto)]

ghost use Rattle.std.specs.Prelude.{◌+◌, ◌*◌, ◌≤◌, length};

pub mod inner;

// A record of 128 bytes within a slice.
#[derive(Clone, Copy)]
pub struct Record<'a> {
    pub bytes: &'a [u8],
    pub r: usize,
    ghost within: { 128 * r + 128 ≤ length bytes.now },
}

// A run of records within a slice.
// Kept: loops over a run go by number, as definitions and invariants do: an iterator would hide it, and need its own laws of what it yields.
#[derive(Clone, Copy)]
pub struct Records<'a> {
    pub bytes: &'a [u8],
    pub first: usize,
    pub count: usize,
    ghost within: { 128 * (first + count) ≤ length bytes.now },
}

// A case as it is lent: how many buses, branches, generators and segments it has, and the bytes of their records. Nothing is checked yet.
#[derive(Clone, Copy)]
pub struct Case<'a> {
    pub n: usize,
    pub m: usize,
    pub k: usize,
    pub s: usize,
    pub bytes: &'a [u8],
}

// The kinds of records, by the numbers that their bytes have.
#[derive(Clone, Copy)]
pub enum Kind {
    Bus = 1,
    Branch = 2,
    Generator = 3,
    Segment = 4,
}
