// The coefficients of the branches' buses in the Ohm rows, as they are gathered.
ghost use Rattle.numbering.specs.Network.{grid};
ghost use Rattle.bus_columns.specs.Gathered.{Gathered};

use numbering::Network;

// A network, and four values for each of its branches.
#[derive(Clone, Copy)]
pub(crate) struct Coefficients<'a> {
    pub(crate) net: Network<'a>,
    pub(crate) values: &'a [f64],
    ghost gathered: { Gathered (grid net) 0 values.now },
}
