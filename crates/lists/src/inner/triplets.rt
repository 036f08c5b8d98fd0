// Writers of one entry, which pass over what has no room.
ghost use Rattle.std.specs.Prelude.{◌≡◌, [], ◌∷◌, ◌+◌, ◌<◌, ◌^◌, length};
ghost use Rattle.lists.specs.UpTo.{when};
ghost use Rattle.lists.specs.Entries.{entry};
ghost use Rattle.lists.specs.Puts.{Puts, exchanged};

use crate::Triplets;
use crate::inner::store;

impl<'a> Triplets<'a> {
    // Kept: the position grows with each entry, so each writer asks the bound that it needs; an invariant that bounds it would be broken by put itself.
    pub fn put(&mut self, r: u32, c: u32, v: f64)
        requires { self.old.at + 1 < 2 ^ 64 }
        ensures { Puts (entry r c v ∷ []) self.old self.new }
    {
        let at = self.at;
        store(self.rows, at, r);
        store(self.cols, at, c);
        store(self.vals, at, v);
        self.at = at + 1;
    }

    // One entry where the test holds.
    // Kept: `Cells` and `Buckets` have the like, each over its own list and promise; a trait over them would state the three promises again.
    pub fn put_if(&mut self, hit: bool, r: u32, c: u32, v: f64)
        requires { self.old.at + length (when hit (entry r c v ∷ [])) < 2 ^ 64 }
        ensures { Puts (when hit (entry r c v ∷ [])) self.old self.new }
    {
        if hit {
            self.put(r, c, v);
        }
    }

    // The lists of rows and of columns change places.
    pub fn exchange(&mut self)
        ensures { self.new ≡ exchanged self.old }
    {
        std::mem::swap(&mut self.rows, &mut self.cols);
    }
}
