// The column of a bus's shunt conductance or susceptance.
ghost use Rattle.std.specs.Prelude.{◌≡◌, [], ◌∷◌, ◌<◌, get_or};
ghost use Rattle.std.specs.Float.{binary64, nan};
ghost use Rattle.std.specs.Float.Ieee.{mul};
ghost use Rattle.numbering.specs.Layout.{InRange, layout_column, layout_row};
ghost use Rattle.numbering.specs.declared.ColumnName.TheVariants.{W};
ghost use Rattle.admittance.specs.Stores.{plus, stored_all};
ghost use Rattle.admittance.specs.Admittance.{shunt_row, shunt_entry};
ghost use Rattle.admittance.specs.Places.{kkt_in};

use crate::Entry;
use crate::inner::stores::land;
use interface::GB;
use numbering::SocWrLayout;

// Kept: a layout in range, no network, here and in `shunt`: no record is read, and a network would ask more of a caller.
// Kept: elements' balance_row picks the same rows by the power of a price, not by the part of an admittance, and lets i be n.
fn shunt_row(l: SocWrLayout, gb: GB, i: usize) -> u32
    requires in_range { InRange l }
    requires i_lt_n { i < l.n }
    ensures { result ≡ layout_row l (shunt_row gb i) }
{
    match gb {
        GB::Conductance => l.pbal_row(i),
        GB::Susceptance => l.qbal_row(i),
    }
}

fn shunt_entry(gb: GB) -> f64
    ensures { result ≡ shunt_entry gb }
{
    match gb {
        GB::Conductance => -1.0,
        GB::Susceptance => 1.0,
    }
}

// Kept: x and z beside the layout, no point: they may have any length here.
pub fn shunt(l: SocWrLayout, gb: GB, i: usize, x: &[f64], z: &[f64], column: &mut [f64])
    requires in_range { InRange l }
    requires i_lt_n { i < l.n }
    ensures { column.new ≡ stored_all (plus (kkt_in l (shunt_row gb i)) (mul binary64 (shunt_entry gb) (get_or x.now (layout_column l (W i)) nan)) ∷ plus (layout_column l (W i)) (mul binary64 (shunt_entry gb) (get_or z.now (layout_row l (shunt_row gb i)) nan)) ∷ []) column.old }
{
    let entry = Entry(shunt_row(l, gb, i), l.w_column(i), shunt_entry(gb));
    land(column, l.column_count(), entry, x, z);
}
