// An accepted network: its layout and its records.
// Kept: an index's bound (e < m, i < n, g < k, i < bound_count of a kind) is one clause of each function: a struct of network and index would be made at each turn of a loop.
ghost use Rattle.numbering.specs.Laid.{Laid};

use crate::SocWrLayout;

#[derive(Clone, Copy)]
pub struct Network<'a> {
    pub layout: SocWrLayout,
    pub bytes: &'a [u8],
    ghost laid: { Laid layout bytes.now },
}
