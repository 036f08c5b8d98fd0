// The rows of the bounds.
ghost use Rattle.std.specs.Prelude.{◌≡◌, ◌+◌, ◌<◌, ◌^◌, length};
ghost use Rattle.lists.specs.UpTo.{each};
ghost use Rattle.lists.specs.Puts.{Puts};
ghost use Rattle.complementarity.specs.Writes.{row_entries};
ghost use Rattle.bounds.specs.Kinds.{bound_name, bound_count};
ghost use Rattle.blocks.specs.Kinds.{kinds_rows};
ghost use Rattle.numbering.specs.Network.{grid};

use crate::BoundKind;
use complementarity::Point;
use complementarity::inner::single::put_row;
use lines::inner::bounded::bound_line;
use lists::Triplets;
use numbering::SocWrLayout;

fn count_of(l: SocWrLayout, kind: BoundKind) -> usize
    ensures { result ≡ bound_count l kind }
{
    match kind {
        BoundKind::Wub | BoundKind::Wlb => l.n,
        BoundKind::Pgub | BoundKind::Pglb | BoundKind::Qgub | BoundKind::Qglb => l.k,
        BoundKind::Angub | BoundKind::Anglb => l.m,
    }
}

fn bound_row(list: &mut Triplets<'_>, p: &Point<'_>, d: bool, kind: BoundKind, i: usize)
    requires i_bound { i < bound_count p.now.net.layout kind }
    requires room { list.old.at + length (row_entries (grid p.now.net) p.now.x.now p.now.z.now d (bound_name kind i)) < 2 ^ 64 }
    ensures { Puts (row_entries (grid p.now.net) p.now.x.now p.now.z.now d (bound_name kind i)) list.old list.new }
{
    let line = bound_line(&p.net, kind, i);
    let v = p.net.layout.column_count();
    put_row(list, d, v, line, p.x, p.z);
}

// The rows of one kind: as they are, or where d holds as rows of the nonnegative cone.
pub fn bound_rows(list: &mut Triplets<'_>, p: &Point<'_>, d: bool, kind: BoundKind)
    requires room { list.old.at + length (each (bound_count p.now.net.layout kind) (λ i. row_entries (grid p.now.net) p.now.x.now p.now.z.now d (bound_name kind i))) < 2 ^ 64 }
    ensures { Puts (each (bound_count p.now.net.layout kind) (λ i. row_entries (grid p.now.net) p.now.x.now p.now.z.now d (bound_name kind i))) list.old list.new }
{
    let n = count_of(p.net.layout, kind);
    for i in 0..n {
        bound_row(list, p, d, kind, i);
    }
}

// The rows of several kinds, one kind after the other.
pub fn kinds_rows(list: &mut Triplets<'_>, p: &Point<'_>, d: bool, kinds: &[BoundKind])
    requires { list.old.at + length (kinds_rows p.now.net.layout (row_entries (grid p.now.net) p.now.x.now p.now.z.now d) kinds.now) < 2 ^ 64 }
    ensures { Puts (kinds_rows p.now.net.layout (row_entries (grid p.now.net) p.now.x.now p.now.z.now d) kinds.now) list.old list.new }
{
    for kind in kinds {
        bound_rows(list, p, d, *kind);
    }
}
