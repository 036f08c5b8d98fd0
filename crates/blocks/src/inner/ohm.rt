// The Ohm rows.
ghost use Rattle.std.specs.Prelude.{◌+◌, ◌<◌, ◌^◌, length};
ghost use Rattle.lists.specs.UpTo.{each};
ghost use Rattle.lists.specs.Puts.{Puts};
ghost use Rattle.kkt.specs.Kkt.{plain_row};
ghost use Rattle.rows.specs.Rows.{ohm_row};
ghost use Rattle.lines.specs.Ohm.{ohm_entries};
ghost use Rattle.numbering.specs.Network.{grid};

use lines::Ohm;
use lines::inner::ohm::ohm_line;
use lists::Triplets;
use numbering::Network;
use rows::OhmRow;

fn put_ohm(list: &mut Triplets<'_>, r: u32, o: Ohm)
    requires { list.old.at + length (ohm_entries r o) < 2 ^ 64 }
    ensures { Puts (ohm_entries r o) list.old list.new }
{
    list.put_if(o.at_w != 0.0, r, o.w, o.at_w);
    list.put_if(o.at_wr != 0.0, r, o.wr, o.at_wr);
    list.put_if(o.at_wi != 0.0, r, o.wi, o.at_wi);
    list.put(r, o.flow, 1.0);
}

fn ohm_row(list: &mut Triplets<'_>, net: &Network<'_>, q: OhmRow, e: usize)
    requires e_lt_m { e < net.now.layout.m }
    requires room { list.old.at + length (plain_row (grid net.now) (ohm_row q e)) < 2 ^ 64 }
    ensures { Puts (plain_row (grid net.now) (ohm_row q e)) list.old list.new }
{
    let o = ohm_line(net, q, e);
    let r = net.layout.column_count() + o.row;
    put_ohm(list, r, o);
}

// The rows of one kind.
pub fn ohm_rows(list: &mut Triplets<'_>, net: &Network<'_>, q: OhmRow)
    requires room { list.old.at + length (each net.now.layout.m (λ e. plain_row (grid net.now) (ohm_row q e))) < 2 ^ 64 }
    ensures { Puts (each net.now.layout.m (λ e. plain_row (grid net.now) (ohm_row q e))) list.old list.new }
{
    for e in 0..net.layout.m {
        ohm_row(list, net, q, e);
    }
}
