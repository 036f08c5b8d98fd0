// The rows of the second-order cones.
ghost use Rattle.std.specs.Prelude.{◌≡◌, ◌+◌, ◌<◌, ◌^◌, length};
ghost use Rattle.lists.specs.UpTo.{count, each};
ghost use Rattle.lists.specs.Puts.{Puts};
ghost use Rattle.numbering.specs.declared.RowName.TheVariants.{Jabr};
ghost use Rattle.numbering.specs.Network.{grid};
ghost use Rattle.complementarity.specs.Writes.{cone_in};
ghost use Rattle.blocks.specs.Kinds.{thermal_in};

use complementarity::Point;
use complementarity::inner::cones::put_lines;
use interface::End;
use lines::inner::cones::{jabr, thermal};
use lists::Triplets;

fn jabr_row(list: &mut Triplets<'_>, p: &Point<'_>, d: bool, e: usize)
    requires e_lt_m { e < p.now.net.layout.m }
    requires room { list.old.at + length (cone_in (grid p.now.net) p.now.x.now p.now.z.now d 4 (Jabr e)) < 2 ^ 64 }
    ensures { Puts (cone_in (grid p.now.net) p.now.x.now p.now.z.now d 4 (Jabr e)) list.old list.new }
{
    let c = jabr(&p.net, e);
    let v = p.net.layout.column_count();
    put_lines(list, d, v, c, 4, p.x, p.z);
}

// The four-row cones: their rows as they are, or where d holds as cones.
pub fn jabr_rows(list: &mut Triplets<'_>, p: &Point<'_>, d: bool)
    requires room { list.old.at + length (each p.now.net.layout.m (λ e. cone_in (grid p.now.net) p.now.x.now p.now.z.now d 4 (Jabr e))) < 2 ^ 64 }
    ensures { Puts (each p.now.net.layout.m (λ e. cone_in (grid p.now.net) p.now.x.now p.now.z.now d 4 (Jabr e))) list.old list.new }
{
    for e in 0..p.net.layout.m {
        jabr_row(list, p, d, e);
    }
}

// The cones of a limited branch; so many limited branches are before it.
fn thermal_row(list: &mut Triplets<'_>, p: &Point<'_>, d: bool, e: usize, limits: usize)
    requires e_lt_m { (e < p.now.net.layout.m) × (limits ≡ count e (grid p.now.net).limited) }
    requires room { list.old.at + length (thermal_in (grid p.now.net) p.now.x.now p.now.z.now d e) < 2 ^ 64 }
    ensures { Puts (thermal_in (grid p.now.net) p.now.x.now p.now.z.now d e) list.old list.new }
{
    let r = p.net.branch(e);
    if r.thermal_limit_active() {
        let v = p.net.layout.column_count();
        let a = thermal(&p.net, End::From, e, limits);
        let b = thermal(&p.net, End::To, e, limits);
        put_lines(list, d, v, a, 3, p.x, p.z);
        put_lines(list, d, v, b, 3, p.x, p.z);
    }
}

// The three-row cones.
pub fn thermal_rows(list: &mut Triplets<'_>, p: &Point<'_>, d: bool)
    requires room { list.old.at + length (each p.now.net.layout.m (thermal_in (grid p.now.net) p.now.x.now p.now.z.now d)) < 2 ^ 64 }
    ensures { Puts (each p.now.net.layout.m (thermal_in (grid p.now.net) p.now.x.now p.now.z.now d)) list.old list.new }
{
    let mut limits = 0;
    for e in 0..p.net.layout.m {
        thermal_row(list, p, d, e, limits);
        let r = p.net.branch(e);
        limits += usize::from(r.thermal_limit_active());
    }
}
