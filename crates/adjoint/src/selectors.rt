// The selector matrix: item o's weights in column o.
ghost use Rattle.std.specs.Prelude.{◌≡◌, ◌+◌, ◌*◌, ◌≤◌, length};
ghost use Rattle.lists.specs.Steps.{turns, through};
ghost use Rattle.refusals.specs.Refusals.{answer_if, left_in};
ghost use Rattle.sparse.specs.Sparse.{items_of};
ghost use Rattle.sparse.specs.Lent.{cells_of};
ghost use Rattle.adjoint.specs.Selectors.{add_weight, add_item, selector_matrix};
ghost use Rattle.adjoint.specs.Checks.{matrix_check};

use refusals::{Refusal, refuse_unless, room_for};
use sparse::{Segment, Selector, Terms};

// The weights added in the column that begins at base.
fn add_weights(out: &mut [f64], base: usize, segment: &Segment<'_>)
    requires { base + segment.now.dim ≤ length out.old }
    ensures { out.new ≡ through (add_weight base) (cells_of segment.now) out.old }
{
    for (row, weight) in segment.rows.iter().zip(segment.weights) {
        let at = base + *row as usize;
        out[at] += *weight;
    }
}

fn add_items(out: &mut [f64], terms: &Terms<'_>)
    requires { length out.old ≡ terms.now.dim * terms.now.segments }
    ensures { out.new ≡ turns (add_item terms.now.dim terms.now.selector.starts.now terms.now.selector.rows.now terms.now.selector.weights.now) terms.now.segments out.old }
{
    for o in 0..terms.segments {
        add_weights(out, o * terms.dim, &terms.segment(o));
    }
}

fn matrix_into(out: &mut [f64], terms: &Terms<'_>)
    requires { (terms.now.segments ≡ items_of terms.now.selector.starts.now) × (length out.old ≡ terms.now.dim * terms.now.segments) }
    ensures { (out.new ≡ selector_matrix terms.now.dim terms.now.selector.starts.now terms.now.selector.rows.now terms.now.selector.weights.now) × (length out.new ≡ terms.now.dim * terms.now.segments) }
{
    out.fill(0.0);
    add_items(out, terms);
}

fn matrix_check(dim: usize, selector: &Selector<'_>, room: usize) -> Result<(), Refusal>
    ensures { result ≡ matrix_check dim selector.now.starts.now selector.now.rows.now selector.now.weights.now room }
{
    refuse_unless(selector.fits(dim), Refusal::BadLists)?;
    room_for(dim * selector.items(), room)
}

// Zeros, with the weights of each item added in its column. It answers how many elements it wrote.
pub fn selector_matrix(dim: usize, selector: &Selector<'_>, out: &mut [f64]) -> Result<u64, Refusal>
    ensures value { result ≡ answer_if (matrix_check dim selector.now.starts.now selector.now.rows.now selector.now.weights.now (length out.old)) (dim * items_of selector.now.starts.now) }
    ensures out_after { out.new ≡ left_in (matrix_check dim selector.now.starts.now selector.now.rows.now selector.now.weights.now (length out.old)) (selector_matrix dim selector.now.starts.now selector.now.rows.now selector.now.weights.now) out.old }
{
    matrix_check(dim, selector, out.len())?;
    let need = dim * selector.items();
    matrix_into(&mut out[..need], &selector.terms(dim));
    Ok(need as u64)
}
