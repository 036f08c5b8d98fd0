// The terms of a selector, and the segments of terms.
ghost use Rattle.std.specs.Prelude.{◌≡◌, true, ◌<◌};
ghost use Rattle.sparse.specs.Sparse.{items_of, item_of};
ghost use Rattle.sparse.specs.Checks.{selector_fits};
ghost use Rattle.sparse.specs.Lent.{cells_of};

use crate::Selector;
use crate::lent::{Segment, Terms};

impl<'a> Selector<'a> {
    // Every item of lists that fit.
    pub fn terms(&self, dim: usize) -> Terms<'a>
        requires { selector_fits dim self.now.starts.now self.now.rows.now self.now.weights.now ≡ true }
        ensures selector { result.selector ≡ self.now }
        ensures segments { result.segments ≡ items_of self.now.starts.now }
        ensures dim { result.dim ≡ dim }
    {
        Terms {
            selector: *self,
            segments: self.items(),
            dim,
        }
    }
}

impl<'a> Terms<'a> {
    pub fn segment(&self, s: usize) -> Segment<'a>
        requires { s < self.now.segments }
        ensures terms { cells_of result ≡ item_of self.now.selector.starts.now self.now.selector.rows.now self.now.selector.weights.now s }
        ensures dim { result.dim ≡ self.now.dim }
    {
        let Selector {
            starts,
            rows,
            weights,
        } = self.selector;
        let first = starts[s] as usize;
        let past = starts[s + 1] as usize;
        Segment {
            rows: &rows[first..past],
            weights: &weights[first..past],
            dim: self.dim,
        }
    }
}
