// The lists lent for a selector: whether they have room, and the starts and weights of one row an item.
ghost use Rattle.std.specs.Prelude.{◌≡◌, ◌+◌, ◌≤◌, ◌<◌, length};
ghost use Rattle.interface.specs.Selectors.{items_of};
ghost use Rattle.interface.specs.Lent.{lent_room, Started};

use crate::inner::count_from;
use crate::{Items, SelectorLists};
use lists::inner::fill;
use refusals::{Refusal, room_for};

impl SelectorLists<'_> {
    // 10: the first of starts, rows, weights, elements that is too short.
    pub fn room(&self, items: usize) -> Result<(), Refusal>
        requires { items < 9223372036854775808 }
        ensures { result ≡ lent_room items self.now }
    {
        room_for(items + 1, self.starts.len())?;
        room_for(items, self.rows.len())?;
        room_for(items, self.weights.len())?;
        room_for(items, self.elements.len())
    }

    // One row of weight 1.0 for each item, whose rows and elements stand in their lists already.
    pub fn start(&mut self, items: usize, sign: f64) -> Items
        requires { (items ≤ 65536) × (items + 1 ≤ length self.old.starts.now) × (items ≤ length self.old.weights.now) }
        ensures value { result ≡ items_of items sign }
        ensures lists_after { Started items self.old self.new }
    {
        count_from(self.starts, items + 1, 0);
        fill(self.weights, items, 1.0);
        Items {
            count: items as u64,
            sign,
        }
    }
}
