// The nonzero values of d_k/dp, gathered column by column in a small buffer, so that a solution is walked
// over them alone.
ghost use Rattle.std.specs.Prelude.{◌≡◌, ◌↔◌, IsTrue, ◌+◌, ◌-◌, ◌^◌, ◌≤◌, ◌<◌, length};
ghost use Rattle.sparse.specs.Sparse.{Segments};
ghost use Rattle.weighing.specs.Gathering.{span, Stopped};
ghost use Rattle.weighing.specs.Buffers.{Adds, Fills};

use crate::{Buffer, Spot};
use sparse::{Dense, Selector, Terms};

impl Buffer {
    pub fn new() -> Buffer
        ensures { (result.segments ≡ 0) × (result.count ≡ 0) }
    {
        Buffer {
            starts: [0; 9],
            rows: [0; 256],
            values: [0.0; 256],
            segments: 0,
            count: 0,
        }
    }

    fn has_room(&self) -> bool
        ensures { IsTrue result ↔ ((self.now.segments < 8) × (self.now.count < 256)) }
    {
        self.segments < 8 && self.count < 256
    }

    // The values from row first up to row past of the column that begins at base: those that are not zero are kept.
    fn scan(&mut self, rhs: &[f64], base: usize, first: usize, past: usize)
        requires { (first ≤ past) × (past < 2 ^ 32) × (base + past ≤ length rhs.now) × (self.old.count + (past - first) ≤ 256) }
        ensures { (self.new.count ≤ self.old.count + (past - first)) × Adds past (span rhs.now base first past) self.old self.new }
    {
        let mut n = self.count;
        // Kept: by index, since the row's number is kept too; over an enumerated part of rhs it would be first plus a count.
        for r in first..past {
            let v = rhs[base + r];
            if v != 0.0 {
                self.rows[n] = r as u32;
                self.values[n] = v;
                n += 1;
            }
        }
        self.count = n;
    }

    // The column that begins at base from row first on, until its end or until the buffer is full. It answers the next row.
    fn gather(&mut self, rhs: &Dense<'_>, base: usize, first: usize) -> usize
        requires { (first < rhs.now.dim) × (base + rhs.now.dim ≤ length rhs.now.values.now) × (self.old.count < 256) }
        ensures { (Stopped first rhs.now.dim self.new.count result) × Adds rhs.now.dim (span rhs.now.values.now base first result) self.old self.new }
    {
        let mut r = first;
        // Kept: how far a turn goes hangs on what the one before put into the buffer.
        while r < rhs.dim && self.count < 256 {
            let past = rhs.dim.min(r + (256 - self.count));
            self.scan(rhs.values, base, r, past);
            r = past;
        }
        r
    }

    // The walk goes on: a segment for each column, until the buffer is full. It answers where the walk stands.
    pub fn fill(&mut self, rhs: &Dense<'_>, from: Spot) -> Spot
        requires { (from.column < rhs.now.columns) × (from.row < rhs.now.dim) }
        ensures { Fills rhs.now from result self.new }
    {
        self.starts[0] = 0;
        self.segments = 0;
        self.count = 0;
        let mut c = from.column;
        let mut r = from.row;
        // Kept: a turn may end within a column, and only the turn tells.
        while c < rhs.columns && self.has_room() {
            r = self.gather(rhs, c * rhs.dim, r);
            self.segments += 1;
            self.starts[self.segments] = self.count as u32;
            if r == rhs.dim {
                c += 1;
                r = 0;
            }
        }
        Spot { column: c, row: r }
    }

    pub fn terms(&self, dim: usize) -> Terms<'_>
        requires { Segments dim self.now.starts self.now.rows self.now.values self.now.segments }
        ensures starts { result.selector.starts.now ≡ self.now.starts }
        ensures rows { result.selector.rows.now ≡ self.now.rows }
        ensures weights { result.selector.weights.now ≡ self.now.values }
        ensures segments { result.segments ≡ self.now.segments }
        ensures dim { result.dim ≡ dim }
    {
        let selector = Selector {
            starts: &self.starts,
            rows: &self.rows,
            weights: &self.values,
        };
        Terms {
            selector,
            segments: self.segments,
            dim,
        }
    }
}
