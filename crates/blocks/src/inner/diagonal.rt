// P.
ghost use Rattle.std.specs.Prelude.{◌+◌, ◌<◌, ◌^◌, length};
ghost use Rattle.lists.specs.Puts.{Puts};
ghost use Rattle.rows.specs.Program.{quadratic};
ghost use Rattle.numbering.specs.Network.{grid};

use lists::Triplets;
use numbering::Network;
use quadratic::inner::quad_value;

// The diagonal of P.
pub fn put_quadratic(list: &mut Triplets<'_>, net: &Network<'_>)
    requires room { list.old.at + length (quadratic (grid net.now)) < 2 ^ 64 }
    ensures { Puts (quadratic (grid net.now)) list.old list.new }
{
    for g in 0..net.layout.k {
        let v = quad_value(net, g);
        let c = net.layout.pg_column(g);
        list.put_if(v != 0.0, c, c, v);
    }
}
