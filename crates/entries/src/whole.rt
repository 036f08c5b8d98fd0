// The parts of the list, each after the other.
ghost use Rattle.std.specs.Prelude.{◌≡◌, ◌+◌, ◌<◌, ◌^◌, length, map};
ghost use Rattle.lists.specs.Puts.{Puts};
ghost use Rattle.lists.specs.Entries.{turned};
ghost use Rattle.rows.specs.Program.{equalities, inequalities, second_order, every_row};
ghost use Rattle.kkt.specs.Kkt.{plain_row, kkt};
ghost use Rattle.dealing.specs.Ahead.{PutsAhead, PutsFinished};
ghost use Rattle.complementarity.specs.Writes.{row_entries, cone_in};
ghost use Rattle.entries.specs.Parts.{stationarity};
ghost use Rattle.numbering.specs.Network.{grid};

use balance::inner::sorted::balance_rows;
use blocks::BoundKind;
use blocks::inner::bounded::kinds_rows;
use blocks::inner::cones::{jabr_rows, thermal_rows};
use blocks::inner::diagonal::put_quadratic;
use blocks::inner::ohm::ohm_rows;
use blocks::inner::segments::segment_rows;
use complementarity::Point;
use lists::Triplets;
use numbering::Network;
use rows::OhmRow;

// The rows of the zero cone.
fn equality_rows(list: &mut Triplets<'_>, net: &Network<'_>)
    requires { list.old.at + length (equalities (grid net.now) (plain_row (grid net.now))) + net.now.layout.n < 2 ^ 31 }
    ensures { PutsAhead net.now.layout.n (equalities (grid net.now) (plain_row (grid net.now))) list.old list.new }
{
    balance_rows(list, net, false);
    balance_rows(list, net, true);
    ohm_rows(list, net, OhmRow::Pf);
    ohm_rows(list, net, OhmRow::Qf);
    ohm_rows(list, net, OhmRow::Pt);
    ohm_rows(list, net, OhmRow::Qt);
}

// The rows of the nonnegative cone, or the same rows as they are.
fn inequality_rows(list: &mut Triplets<'_>, p: &Point<'_>, d: bool)
    requires { list.old.at + length (inequalities (grid p.now.net) (row_entries (grid p.now.net) p.now.x.now p.now.z.now d)) < 2 ^ 64 }
    ensures { Puts (inequalities (grid p.now.net) (row_entries (grid p.now.net) p.now.x.now p.now.z.now d)) list.old list.new }
{
    kinds_rows(
        list,
        p,
        d,
        &[
            BoundKind::Wub,
            BoundKind::Wlb,
            BoundKind::Pgub,
            BoundKind::Pglb,
            BoundKind::Qgub,
            BoundKind::Qglb,
            BoundKind::Angub,
            BoundKind::Anglb,
        ],
    );
    segment_rows(list, p, d);
}

// The second-order cones, or the same rows as they are.
fn cone_rows(list: &mut Triplets<'_>, p: &Point<'_>, d: bool)
    requires { list.old.at + length (second_order (grid p.now.net) (cone_in (grid p.now.net) p.now.x.now p.now.z.now d)) < 2 ^ 64 }
    ensures { Puts (second_order (grid p.now.net) (cone_in (grid p.now.net) p.now.x.now p.now.z.now d)) list.old list.new }
{
    jabr_rows(list, p, d);
    thermal_rows(list, p, d);
}

// All rows of A, as rows of the KKT matrix.
fn program_rows(list: &mut Triplets<'_>, p: &Point<'_>)
    requires { list.old.at + length (every_row (grid p.now.net) (plain_row (grid p.now.net))) + p.now.net.layout.n < 2 ^ 31 }
    ensures { PutsAhead p.now.net.layout.n (every_row (grid p.now.net) (plain_row (grid p.now.net))) list.old list.new }
{
    equality_rows(list, &p.net);
    inequality_rows(list, p, false);
    cone_rows(list, p, false);
}

// The transposed rows: the two lists of numbers are exchanged.
fn turned_rows(list: &mut Triplets<'_>, p: &Point<'_>)
    requires { list.old.at + length (map turned (every_row (grid p.now.net) (plain_row (grid p.now.net)))) + p.now.net.layout.n < 2 ^ 31 }
    ensures { PutsAhead p.now.net.layout.n (map turned (every_row (grid p.now.net) (plain_row (grid p.now.net)))) list.old list.new }
{
    list.exchange();
    program_rows(list, p);
    list.exchange();
}

// The list up to the rows of the zero cone.
fn first_part(list: &mut Triplets<'_>, p: &Point<'_>)
    requires { list.old.at + length (stationarity (grid p.now.net)) + p.now.net.layout.n < 2 ^ 31 }
    ensures { PutsAhead p.now.net.layout.n (stationarity (grid p.now.net)) list.old list.new }
{
    put_quadratic(list, &p.net);
    turned_rows(list, p);
    equality_rows(list, &p.net);
}

// The whole list.
pub(crate) fn put_kkt(list: &mut Triplets<'_>, p: &Point<'_>)
    requires { list.old.at + length (kkt (grid p.now.net) p.now.x.now p.now.z.now) + p.now.net.layout.n < 2 ^ 31 }
    ensures { PutsFinished (kkt (grid p.now.net) p.now.x.now p.now.z.now) list.old list.new }
{
    first_part(list, p);
    inequality_rows(list, p, true);
    cone_rows(list, p, true);
}

// How many entries the list has: lists without a place take none of them.
pub(crate) fn kkt_count(p: &Point<'_>) -> usize
    ensures { result ≡ length (kkt (grid p.now.net) p.now.x.now p.now.z.now) }
{
    let mut list = Triplets {
        rows: &mut [],
        cols: &mut [],
        vals: &mut [],
        at: 0,
    };
    put_kkt(&mut list, p);
    list.at
}
