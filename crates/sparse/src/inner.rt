// Whether the lists of an entry fit together: number 12's causes.
ghost use Rattle.std.specs.Prelude.{◌≡◌, ◌&&◌, ◌+◌, ◌≤◌, ◌<◌, leb, length};
ghost use Rattle.lists.specs.UpTo.{all};
ghost use Rattle.sparse.specs.Sparse.{items_of, start_of};
ghost use Rattle.sparse.specs.Checks.{most_dim, bounded as bounded_of, all_below, entries_fit, starts_fit, selector_fits};

use crate::{Entries, Selector};

pub mod terms;

// The largest matrix that is taken.
pub const MOST_DIM: usize = 294912;

pub fn bounded(dim: usize, columns: usize) -> bool
    ensures { result ≡ bounded_of dim columns }
{
    (columns <= 65536) & (dim <= MOST_DIM)
}

// All elements are looked at, with no way out, so that the loop needs no branch.
fn all_below(limit: u32, s: &[u32]) -> bool
    ensures { result ≡ all_below limit s.now }
{
    s.iter().fold(true, |ok, x| ok & (*x < limit))
}

impl<'a> Entries<'a> {
    pub fn fit(&self, dim: usize) -> bool
        requires { dim ≤ most_dim }
        ensures { result ≡ entries_fit dim self.now.rows.now self.now.cols.now self.now.values.now }
    {
        let n = self.rows.len();
        let a = self.cols.len() == n;
        let b = self.values.len() == n;
        let limit = dim as u32;
        a & b & all_below(limit, self.rows) & all_below(limit, self.cols)
    }
}

// Whether none of the starts from one on up to another is past the next. All are looked at, with no way out, so that the loop needs no branch.
// Kept: by index: each start is read twice, after the one before it and before the one behind it.
fn part_rises(starts: &[u32], first: usize, past: usize) -> bool
    requires { (first ≤ past) × (past < length starts.now) }
    ensures { all past (λ o. leb (start_of starts.now o) (start_of starts.now (o + 1))) ≡ (all first (λ o. leb (start_of starts.now o) (start_of starts.now (o + 1))) && result) }
{
    let mut ok = true;
    for o in first..past {
        ok = ok & (starts[o] <= starts[o + 1]);
    }
    ok
}

// Whether the starts of so many items rise, part by part: lists whose starts fall early are turned away early.
// Kept: `is_sorted` looks at one after the other, and takes twice the time where all rise.
fn rise(starts: &[u32], items: usize) -> bool
    requires { items < length starts.now }
    ensures { result ≡ all items (λ o. leb (start_of starts.now o) (start_of starts.now (o + 1))) }
{
    let mut first = 0;
    // Kept: a part that falls ends the walk, and the last part is shorter.
    while first < items {
        let past = items.min(first + 1024);
        if !part_rises(starts, first, past) {
            return false;
        }
        first = past;
    }
    true
}

fn starts_fit(starts: &[u32], n: usize) -> bool
    ensures { result ≡ starts_fit starts.now n }
{
    if let Some(last) = starts.last() {
        let a = starts[0] == 0;
        let b = *last as usize == n;
        return a & b & rise(starts, starts.len() - 1);
    }
    false
}

impl<'a> Selector<'a> {
    pub fn items(&self) -> usize
        ensures { result ≡ items_of self.now.starts.now }
    {
        self.starts.len().saturating_sub(1)
    }

    pub fn fits(&self, dim: usize) -> bool
        ensures { result ≡ selector_fits dim self.now.starts.now self.now.rows.now self.now.weights.now }
    {
        if bounded(dim, self.items()) {
            let n = self.rows.len();
            let a = self.weights.len() == n;
            let limit = dim as u32;
            return starts_fit(self.starts, n) & a & all_below(limit, self.rows);
        }
        false
    }
}
