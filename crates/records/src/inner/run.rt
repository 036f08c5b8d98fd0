// A run's records.
ghost use Rattle.std.specs.Prelude.{◌≡◌, ◌+◌, ◌*◌, ◌≤◌, ◌<◌, length};

use crate::{Record, Records};

impl<'a> Records<'a> {
    pub fn new(bytes: &'a [u8], first: usize, count: usize) -> Records<'a>
        requires { 128 * (first + count) ≤ length bytes.now }
        ensures first { result.first ≡ first }
        ensures count { result.count ≡ count }
        ensures bytes { result.bytes.now ≡ bytes.now }
    {
        Records {
            bytes,
            first,
            count,
        }
    }

    // Record i of the run.
    pub fn record(self, i: usize) -> Record<'a>
        requires { i < self.count }
        ensures place { result.r ≡ self.entry.first + i }
        ensures bytes { result.bytes.now ≡ self.entry.bytes.now }
    {
        Record {
            bytes: self.bytes,
            r: self.first + i,
        }
    }

    // The first count records of the run.
    pub fn take(self, count: usize) -> Records<'a>
        requires { count ≤ self.count }
        ensures first { result.first ≡ self.entry.first }
        ensures count { result.count ≡ count }
        ensures bytes { result.bytes.now ≡ self.entry.bytes.now }
    {
        Records {
            bytes: self.bytes,
            first: self.first,
            count,
        }
    }
}
