// How a network comes about, and its records.
// Kept: kinds have a function each, for one record and for all: one over a kind would match for its count and its first record, in clauses too.
ghost use Rattle.std.specs.Prelude.{◌≡◌, ◌+◌, ◌<◌, MatchResult, Err};
ghost use Rattle.records.specs.Case.{case_check};
ghost use Rattle.numbering.specs.Network.{Opened};

use crate::SocWrLayout;
use crate::network::Network;
use records::{Case, Record, Records};
use refusals::Refusal;

impl<'a> Network<'a> {
    // The network of a case that the record check accepts.
    pub fn new(case: Case<'a>) -> Result<Network<'a>, Refusal>
        ensures { MatchResult result (Opened case.entry.n case.entry.m case.entry.k case.entry.s case.entry.bytes.now) (λ cause. case_check case.entry ≡ Err cause) }
    {
        let layout = SocWrLayout::new(case)?;
        Ok(Network {
            layout,
            bytes: case.bytes,
        })
    }

    pub fn bus(&self, i: usize) -> Record<'a>
        requires { i < self.now.layout.n }
        ensures place { result.r ≡ i }
        ensures bytes { result.bytes.now ≡ self.now.bytes.now }
    {
        Record {
            bytes: self.bytes,
            r: i,
        }
    }

    pub fn branch(&self, e: usize) -> Record<'a>
        requires { e < self.now.layout.m }
        ensures place { result.r ≡ self.now.layout.n + e }
        ensures bytes { result.bytes.now ≡ self.now.bytes.now }
    {
        Record {
            bytes: self.bytes,
            r: self.layout.n + e,
        }
    }

    pub fn generator(&self, g: usize) -> Record<'a>
        requires { g < self.now.layout.k }
        ensures place { result.r ≡ self.now.layout.n + self.now.layout.m + g }
        ensures bytes { result.bytes.now ≡ self.now.bytes.now }
    {
        Record {
            bytes: self.bytes,
            r: self.layout.n + self.layout.m + g,
        }
    }

    // Segment t of all, over the generators.
    pub fn segment(&self, t: usize) -> Record<'a>
        requires { t < self.now.layout.s }
        ensures place { result.r ≡ self.now.layout.n + self.now.layout.m + self.now.layout.k + t }
        ensures bytes { result.bytes.now ≡ self.now.bytes.now }
    {
        Record {
            bytes: self.bytes,
            r: self.layout.n + self.layout.m + self.layout.k + t,
        }
    }

    // The records of a kind.
    pub fn branches(&self) -> Records<'a>
        ensures first { result.first ≡ self.now.layout.n }
        ensures count { result.count ≡ self.now.layout.m }
        ensures bytes { result.bytes.now ≡ self.now.bytes.now }
    {
        let l = self.layout;
        Records::new(self.bytes, l.n, l.m)
    }

    pub fn generators(&self) -> Records<'a>
        ensures first { result.first ≡ self.now.layout.n + self.now.layout.m }
        ensures count { result.count ≡ self.now.layout.k }
        ensures bytes { result.bytes.now ≡ self.now.bytes.now }
    {
        let l = self.layout;
        Records::new(self.bytes, l.n + l.m, l.k)
    }

    pub fn segments(&self) -> Records<'a>
        ensures first { result.first ≡ self.now.layout.n + self.now.layout.m + self.now.layout.k }
        ensures count { result.count ≡ self.now.layout.s }
        ensures bytes { result.bytes.now ≡ self.now.bytes.now }
    {
        let l = self.layout;
        Records::new(self.bytes, l.n + l.m + l.k, l.s)
    }
}
