// A point of a network.
ghost use Rattle.complementarity.specs.Writes.{Given};

use numbering::Network;

// Values for the columns and for the rows of a network.
#[derive(Clone, Copy)]
pub struct Point<'a> {
    pub net: Network<'a>,
    pub x: &'a [f64],
    pub z: &'a [f64],
    ghost given: { Given net.layout net.bytes.now x.now z.now },
}
