// Writers of one cell, which pass over what has no room.
ghost use Rattle.std.specs.Prelude.{◌≡◌, ◌+◌, ◌≤◌, ◌<◌, ◌^◌, set};
ghost use Rattle.lists.specs.UpTo.{when};
ghost use Rattle.matrix.specs.Columns.{one_cell, nonzero_cell};
ghost use Rattle.cells.specs.Puts.{PutsCells};

use crate::Cells;
use lists::inner::store;

impl<'a> Cells<'a> {
    pub fn put(&mut self, r: u32, v: f64)
        requires { self.old.at + 1 < 2 ^ 64 }
        ensures puts { PutsCells (one_cell r v) self.old self.new }
        ensures upper_bound { self.new.at ≤ self.old.at + 1 }
    {
        let at = self.at;
        store(self.rows, at, r);
        store(self.vals, at, v);
        self.at = at + 1;
    }

    // A cell, where the test holds.
    // Kept: `Triplets`, `Buckets` and `Cells` each have this test of their own `put` or `deal`; a trait over them would state the three promises again.
    pub fn put_if(&mut self, hit: bool, r: u32, v: f64)
        requires { self.old.at + 1 < 2 ^ 64 }
        ensures puts { PutsCells (when hit (one_cell r v)) self.old self.new }
        ensures upper_bound { self.new.at ≤ self.old.at + 1 }
    {
        if hit {
            self.put(r, v);
        }
    }

    // The Rust's `a` and `quad`: a cell, unless its value equals zero.
    pub fn put_nonzero(&mut self, r: u32, v: f64)
        requires { self.old.at + 1 < 2 ^ 64 }
        ensures puts { PutsCells (nonzero_cell r v) self.old self.new }
        ensures upper_bound { self.new.at ≤ self.old.at + 1 }
    {
        self.put_if(v != 0.0, r, v);
    }

    // Column c ends here: the next one's start.
    pub fn end_column(&self, starts: &mut [u32], c: usize)
        requires { (c + 1 < 2 ^ 64) × (self.now.at < 2 ^ 32) }
        ensures { starts.new ≡ set starts.old (c + 1) self.now.at }
    {
        store(starts, c + 1, self.at as u32);
    }
}
