// `Selector::new` into lent lists: item o is the rows and weights from starts[o] up to starts[o + 1].
ghost use Rattle.std.specs.Prelude.{◌≡◌, length};
ghost use Rattle.refusals.specs.Refusals.{answer_if};
ghost use Rattle.interface.specs.Selectors.{selector_check, items_of};
ghost use Rattle.interface.specs.Lent.{Selects};

use crate::{Items, SelectorLists};
use lists::inner::copy;
use refusals::{Refusal, refuse_unless};

fn selector_check(
    from_rows: &[u32],
    from_elements: &[u32],
    lists: &SelectorLists<'_>,
) -> Result<(), Refusal>
    ensures { result ≡ selector_check from_rows.now from_elements.now lists.now.starts.now lists.now.rows.now lists.now.weights.now lists.now.elements.now }
{
    let items = from_rows.len();
    let fits = (from_elements.len() == items) & (items <= 65536);
    refuse_unless(fits, Refusal::BadLists)?;
    lists.room(items)
}

// `Selector::new`: one row of weight 1.0 for each item, and the sign.
pub fn selector_new(
    from_rows: &[u32],
    from_elements: &[u32],
    sign: f64,
    lists: &mut SelectorLists<'_>,
) -> Result<Items, Refusal>
    ensures value { result ≡ answer_if (selector_check from_rows.now from_elements.now lists.old.starts.now lists.old.rows.now lists.old.weights.now lists.old.elements.now) (items_of (length from_rows.now) sign) }
    ensures lists_after { Selects (selector_check from_rows.now from_elements.now lists.old.starts.now lists.old.rows.now lists.old.weights.now lists.old.elements.now) (length from_rows.now) from_rows.now from_elements.now lists.old lists.new }
{
    selector_check(from_rows, from_elements, lists)?;
    copy(lists.rows, from_rows);
    copy(lists.elements, from_elements);
    Ok(lists.start(from_rows.len(), sign))
}
