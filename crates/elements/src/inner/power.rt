// The balance row of a bus.
ghost use Rattle.std.specs.Prelude.{◌≡◌, ◌≤◌};
ghost use Rattle.numbering.specs.Layout.{InRange, layout_row};
ghost use Rattle.elements.specs.Balance.{price_row};

use interface::Power;
use numbering::SocWrLayout;

// Kept: a layout in range, which plain_columns has without a network; alike others by chance: a match on an enum, whose rows are its own.
pub fn balance_row(l: SocWrLayout, power: Power, i: usize) -> u32
    requires in_range { InRange l }
    requires i_le_n { i ≤ l.n }
    ensures { result ≡ layout_row l (price_row power i) }
{
    match power {
        Power::Active => l.pbal_row(i),
        Power::Reactive => l.qbal_row(i),
    }
}
