// `forward_adjoint` without its solve: the checks, and the direction that the mode names.
ghost use Rattle.std.specs.Prelude.{◌≡◌, true, ◌*◌, length};
ghost use Rattle.refusals.specs.Refusals.{answer_if, left_in};
ghost use Rattle.sparse.specs.Sparse.{items_of};
ghost use Rattle.combination.specs.Checks.{concrete};
ghost use Rattle.combination.specs.Given.{solved_lists_fit, solved_fits, solved_check, solved_combination};

use crate::Solved;
use crate::combine::{adjoint_into, forward_into};
use interface::Mode;
use refusals::{Refusal, refuse_unless, room_for};
use sparse::Dense;
use sparse::inner::bounded;

fn is_concrete(mode: Mode) -> bool
    ensures { result ≡ concrete mode }
{
    !matches!(mode, Mode::Auto)
}

fn lists_fit(given: &Solved<'_>) -> bool
    ensures { result ≡ solved_lists_fit given.now }
{
    bounded(given.dim, given.columns) && given.selector.fits(given.dim)
}

fn fits(mode: Mode, given: &Solved<'_>) -> bool
    ensures { result ≡ solved_fits mode given.now }
{
    if !lists_fit(given) {
        return false;
    }
    let size = given.dim * given.columns;
    let length = given.solution.len();
    match mode {
        Mode::Forward => length == size,
        Mode::Adjoint => {
            (given.rhs.len() == size) & (length == given.dim * given.selector.items())
        }
        Mode::Auto => false,
    }
}

fn check(mode: Mode, given: &Solved<'_>, room: usize) -> Result<(), Refusal>
    ensures { result ≡ solved_check mode given.now room }
{
    refuse_unless(is_concrete(mode), Refusal::ModeAuto)?;
    refuse_unless(fits(mode, given), Refusal::BadLists)?;
    room_for(given.selector.items() * given.columns, room)
}

fn combine_into(out: &mut [f64], mode: Mode, given: &Solved<'_>)
    requires { (solved_fits mode given.now ≡ true) × (length out.old ≡ items_of given.now.selector.starts.now * given.now.columns) }
    ensures { (out.new ≡ solved_combination mode given.now) × (length out.new ≡ items_of given.now.selector.starts.now * given.now.columns) }
{
    let dim = given.dim;
    let columns = given.columns;
    match mode {
        Mode::Forward => {
            let x = Dense {
                values: given.solution,
                dim,
                columns,
            };
            forward_into(out, &given.selector.terms(dim), given.sign, &x);
        }
        Mode::Adjoint => {
            let rhs = Dense {
                values: given.rhs,
                dim,
                columns,
            };
            let y = Dense {
                values: given.solution,
                dim,
                columns: given.selector.items(),
            };
            adjoint_into(out, given.sign, &rhs, &y);
        }
        Mode::Auto => {}
    }
}

// Item o, column c of the result at o * columns + c. It answers how many elements it wrote.
pub fn forward_adjoint(mode: Mode, given: &Solved<'_>, out: &mut [f64]) -> Result<u64, Refusal>
    ensures value { result ≡ answer_if (solved_check mode given.now (length out.old)) (items_of given.now.selector.starts.now * given.now.columns) }
    ensures out_after { out.new ≡ left_in (solved_check mode given.now (length out.old)) (solved_combination mode given.now) out.old }
{
    check(mode, given, out.len())?;
    let need = given.selector.items() * given.columns;
    combine_into(&mut out[..need], mode, given);
    Ok(need as u64)
}
