// The selector of an operand.
ghost use Rattle.std.specs.Prelude.{◌≡◌, true, ◌≤◌, length};
ghost use Rattle.lists.specs.UpTo.{overlay};
ghost use Rattle.refusals.specs.Refusals.{answer_if};
ghost use Rattle.interface.specs.Selectors.{items_of};
ghost use Rattle.interface.specs.Lent.{Selects};
ghost use Rattle.numbering.specs.Layout.{layout_column};
ghost use Rattle.numbering.specs.Network.{grid};
ghost use Rattle.elements.specs.Lengths.{has_operand, operand_len};
ghost use Rattle.operands.specs.Selector.{dispatch_column, flow_of, voltage_at, selector_row, selector_rows, selector_elements, selector_sign, lists_cause};

use elements::inner::lengths::operand_length;
use elements::inner::power::balance_row;
use interface::inner::count_from;
use interface::{End, Items, Operand, Power, SelectorLists, VoltageKind};
use numbering::Network;
use refusals::Refusal;

fn price_first(net: &Network<'_>, power: Power) -> u32
    ensures { result ≡ selector_row (grid net.now) (Operand.Price power) 0 }
{
    net.layout.column_count() + balance_row(net.layout, power, 0)
}

fn dispatch_first(net: &Network<'_>, power: Power) -> u32
    ensures { result ≡ layout_column net.now.layout (dispatch_column power 0) }
{
    match power {
        Power::Active => net.layout.pg_column(0),
        Power::Reactive => net.layout.qg_column(0),
    }
}

fn flow_first(net: &Network<'_>, power: Power, end: End) -> u32
    ensures { result ≡ layout_column net.now.layout (flow_of power end 0) }
{
    match (power, end) {
        (Power::Active, End::From) => net.layout.pf_column(0),
        (Power::Active, End::To) => net.layout.pt_column(0),
        (Power::Reactive, End::From) => net.layout.qf_column(0),
        (Power::Reactive, End::To) => net.layout.qt_column(0),
    }
}

fn voltage_first(net: &Network<'_>, kind: VoltageKind) -> u32
    ensures { result ≡ voltage_at (grid net.now) kind 0 }
{
    match kind {
        VoltageKind::Magnitude => 0,
        VoltageKind::Angle => 0,
        VoltageKind::Squared => net.layout.w_column(0),
        VoltageKind::ProductReal => net.layout.wr_column(0),
        VoltageKind::ProductImag => net.layout.wi_column(0),
    }
}

// The row of the first item; where there is none, of the place where it would stand.
// Kept: one match on an enum, an arm for each operand: no table and no flag, which a closure or dyn could take the place of.
fn first_row(net: &Network<'_>, o: Operand) -> u32
    ensures { result ≡ selector_row (grid net.now) o 0 }
{
    match o {
        Operand::Price(power) => price_first(net, power),
        Operand::Dispatch(power) => dispatch_first(net, power),
        Operand::Flow { power, end } => flow_first(net, power, end),
        Operand::Voltage(kind) => voltage_first(net, kind),
    }
}

fn sign(o: Operand) -> f64
    ensures { result ≡ selector_sign o }
{
    match o {
        Operand::Price(_) => -1.0,
        Operand::Dispatch(_) => 1.0,
        Operand::Flow { .. } => 1.0,
        Operand::Voltage(_) => 1.0,
    }
}

fn write_rows(net: &Network<'_>, o: Operand, items: usize, rows: &mut [u32])
    requires { (has_operand o ≡ true) × (items ≡ operand_len net.now.layout.n net.now.layout.m net.now.layout.k o) × (items ≤ length rows.old) }
    ensures { rows.new ≡ overlay (selector_rows (grid net.now) o) rows.old }
{
    count_from(rows, items, first_row(net, o));
}

// How many items there are; 9, 10.
fn operand_items(net: &Network<'_>, o: Operand, lists: &SelectorLists<'_>) -> Result<usize, Refusal>
    ensures { result ≡ answer_if (lists_cause net.now.layout.n net.now.layout.m net.now.layout.k o lists.now) (operand_len net.now.layout.n net.now.layout.m net.now.layout.k o) }
{
    let l = net.layout;
    let items = operand_length(l.n, l.m, l.k, o).ok_or(Refusal::NotInSocWr)?;
    lists.room(items)?;
    Ok(items)
}

// The selector on a network.
pub fn selector_of(
    net: &Network<'_>,
    o: Operand,
    lists: &mut SelectorLists<'_>,
) -> Result<Items, Refusal>
    ensures value { result ≡ answer_if (lists_cause net.now.layout.n net.now.layout.m net.now.layout.k o lists.old) (items_of (operand_len net.now.layout.n net.now.layout.m net.now.layout.k o) (selector_sign o)) }
    ensures lists_after { Selects (lists_cause net.now.layout.n net.now.layout.m net.now.layout.k o lists.old) (operand_len net.now.layout.n net.now.layout.m net.now.layout.k o) (selector_rows (grid net.now) o) (selector_elements (operand_len net.now.layout.n net.now.layout.m net.now.layout.k o)) lists.old lists.new }
{
    let items = operand_items(net, o, lists)?;
    write_rows(net, o, items, lists.rows);
    count_from(lists.elements, items, 0);
    Ok(lists.start(items, sign(o)))
}
