// Numbers and floats of bytes, and what records and runs of records are asked.
ghost use Rattle.std.specs.Prelude.{◌≡◌, ◌+◌, ◌≤◌, ◌<◌, length, get_or};
ghost use Rattle.std.specs.Float.Ieee.{of_bits};
ghost use Rattle.std.specs.Float.{binary64};
ghost use Rattle.records.specs.Bytes.{le16, le32, le64};

use std::num::f64_from_bits_with_nan;

pub mod record;
pub mod run;

// Kept: read16, read32 and read64 are three, since no trait of std gives `from_le_bytes` to the three types.
pub fn byte_at(b: &[u8], at: usize) -> u16
    requires { at < length b.now }
    ensures value { result ≡ get_or b.now at 0 }
    ensures upper_bound { result < 256 }
{
    u16::from(b[at])
}

#[tactic(auto, unfolding(crate::specs::Bytes::le16))]
pub fn read16(b: &[u8], at: usize) -> u16
    requires { at + 2 ≤ length b.now }
    ensures { result ≡ le16 b.now at }
{
    u16::from_le_bytes([b[at], b[at + 1]])
}

#[tactic(auto, unfolding(crate::specs::Bytes::le16, crate::specs::Bytes::le32))]
pub fn read32(b: &[u8], at: usize) -> u32
    requires { at + 4 ≤ length b.now }
    ensures { result ≡ le32 b.now at }
{
    u32::from_le_bytes([b[at], b[at + 1], b[at + 2], b[at + 3]])
}

#[tactic(auto, unfolding(crate::specs::Bytes::le16, crate::specs::Bytes::le32, crate::specs::Bytes::le64))]
pub fn read64(b: &[u8], at: usize) -> u64
    requires { at + 8 ≤ length b.now }
    ensures { result ≡ le64 b.now at }
{
    u64::from_le_bytes([
        b[at],
        b[at + 1],
        b[at + 2],
        b[at + 3],
        b[at + 4],
        b[at + 5],
        b[at + 6],
        b[at + 7],
    ])
}

// A float of any eight bytes: a NaN's bits read as the NaN.
pub fn float_at(b: &[u8], at: usize) -> f64
    requires { at + 8 ≤ length b.now }
    ensures { result ≡ of_bits binary64 (le64 b.now at) }
{
    f64_from_bits_with_nan(read64(b, at))
}
