// The selectors of operands.
#![tactic(auto)]

ghost use Rattle.std.specs.Prelude.{◌≡◌};
ghost use Rattle.refusals.specs.Refusals.{answer_if};
ghost use Rattle.records.specs.Case.{case_network};
ghost use Rattle.interface.specs.Selectors.{items_of};
ghost use Rattle.interface.specs.Lent.{Selects};
ghost use Rattle.elements.specs.Lengths.{operand_len};
ghost use Rattle.operands.specs.Selector.{lists_check, selector_rows, selector_elements, selector_sign};

use inner::selector::selector_of;
use interface::{Items, Operand, SelectorLists};
use numbering::Network;
use records::Case;
use refusals::Refusal;

mod inner;

// The rows that an operand reads, one of weight 1.0 for each item, and the sign.
pub fn operand_selector(
    case: Case<'_>,
    operand: Operand,
    lists: &mut SelectorLists<'_>,
) -> Result<Items, Refusal>
    ensures value { result ≡ answer_if (lists_check case.entry.n case.entry.m case.entry.k case.entry.s case.entry.bytes.now operand lists.old) (items_of (operand_len case.entry.n case.entry.m case.entry.k operand) (selector_sign operand)) }
    ensures lists_after { Selects (lists_check case.entry.n case.entry.m case.entry.k case.entry.s case.entry.bytes.now operand lists.old) (operand_len case.entry.n case.entry.m case.entry.k operand) (selector_rows (case_network case.entry) operand) (selector_elements (operand_len case.entry.n case.entry.m case.entry.k operand)) lists.old lists.new }
{
    let net = Network::new(case)?;
    selector_of(&net, operand, lists)
}
