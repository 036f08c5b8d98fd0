// Kind 2: one call, with the lists that it reads and writes.
use crate::agree::{UNWRITTEN, UNWRITTEN_FLOAT, are_left_alike, are_same};
use crate::answers::Answered;
use crate::entry::Entry;
use crate::input;
use crate::input::{list, next};
use crate::networks::{Counts, Network};
use std::alloc::{AllocError, Global};
use std::io::Read;
use std::{io, mem};

// The lists that a call reads.
#[derive(Drop)]
pub(crate) struct Reads {
    pub(crate) a: Vec<u32>,
    pub(crate) b: Vec<u32>,
    pub(crate) c: Vec<f64>,
    pub(crate) d: Vec<f64>,
    pub(crate) e: Vec<f64>,
}

// The lists that a call writes.
#[derive(Drop)]
pub(crate) struct Writes {
    pub(crate) p: Vec<u32>,
    pub(crate) q: Vec<u32>,
    pub(crate) r: Vec<u32>,
    pub(crate) s: Vec<f64>,
}

#[derive(Drop)]
pub(crate) struct Call {
    pub(crate) entry: Entry,
    pub(crate) network: Network,
    pub(crate) reads: Reads,
    want: Answered,
    kept: Writes,
}

impl Reads {
    fn next(alloc: Global, from: &mut impl Read, lengths: [u64; 5]) -> io::Result<Reads> {
        let [a, b, c, d, e] = lengths;
        Ok(Reads {
            a: list(alloc, from, a)?,
            b: list(alloc, from, b)?,
            c: list(alloc, from, c)?,
            d: list(alloc, from, d)?,
            e: list(alloc, from, e)?,
        })
    }
}

impl Writes {
    fn next(alloc: Global, from: &mut impl Read, lengths: [u64; 4]) -> io::Result<Writes> {
        let [p, q, r, s] = lengths;
        Ok(Writes {
            p: list(alloc, from, p)?,
            q: list(alloc, from, q)?,
            r: list(alloc, from, r)?,
            s: list(alloc, from, s)?,
        })
    }

    // Lists of the same lengths, as they are before a call.
    fn unwritten(&self, alloc: Global) -> Result<Writes, AllocError> {
        Ok(Writes {
            p: vec![in alloc; UNWRITTEN; self.p.len()]?,
            q: vec![in alloc; UNWRITTEN; self.q.len()]?,
            r: vec![in alloc; UNWRITTEN; self.r.len()]?,
            s: vec![in alloc; UNWRITTEN_FLOAT; self.s.len()]?,
        })
    }
}

impl Call {
    pub(crate) fn next(alloc: Global, from: &mut impl Read) -> io::Result<Call> {
        let [entry, n, m, k, s, length] = input::words::<6>(from)?;
        let numbers = input::words(from)?;
        let entry = Entry::new(entry, numbers, next(from)?);
        let reads = input::words(from)?;
        let writes = input::words(from)?;
        let [number, value] = input::words::<2>(from)?;
        let want = Answered::new(number, value, next(from)?);
        let records = input::bytes(alloc, from, length)?;
        Ok(Call {
            entry,
            network: Network {
                counts: Counts { n, m, k, s },
                records,
            },
            reads: Reads::next(alloc, from, reads)?,
            want,
            kept: Writes::next(alloc, from, writes)?,
        })
    }

    // The call is made twice, the second time with NaNs lent. Its lists of numbers then hold the answer already.
    pub(crate) fn agrees(&self, alloc: Global) -> Result<bool, AllocError> {
        let mut out = self.kept.unwritten(alloc)?;
        let nans = vec![in alloc; f64::NAN; out.s.len()]?;
        let got = self.answer(&mut out);
        let first = mem::replace(&mut out.s, nans);
        let again = self.answer(&mut out);
        Ok(
            got == self.want
                && again == self.want
                && out.p == self.kept.p
                && out.q == self.kept.q
                && out.r == self.kept.r
                && are_same(&first, &self.kept.s)
                && are_left_alike(&first, &out.s),
        )
    }
}
