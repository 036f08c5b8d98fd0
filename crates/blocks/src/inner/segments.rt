// The rows of the cost segments.
ghost use Rattle.std.specs.Prelude.{◌≡◌, ◌+◌, ◌<◌, ◌^◌, length};
ghost use Rattle.lists.specs.UpTo.{sum, count, each};
ghost use Rattle.lists.specs.Puts.{Puts};
ghost use Rattle.numbering.specs.declared.RowName.TheVariants.{Segment};
ghost use Rattle.numbering.specs.Network.{grid};
ghost use Rattle.complementarity.specs.Writes.{row_entries};

use complementarity::Point;
use complementarity::inner::single::put_row;
use lines::inner::segments::segment;
use lists::Triplets;

fn segment_row(
    list: &mut Triplets<'_>,
    p: &Point<'_>,
    d: bool,
    g: usize,
    t: usize,
    before: usize,
    curves: usize,
)
    requires g_lt_k { (g < p.now.net.layout.k) × (t < (grid p.now.net).segments g) }
    requires before_value { (before ≡ sum g (grid p.now.net).segments) × (curves ≡ count g (grid p.now.net).piecewise) }
    requires room { list.old.at + length (row_entries (grid p.now.net) p.now.x.now p.now.z.now d (Segment g t)) < 2 ^ 64 }
    ensures { Puts (row_entries (grid p.now.net) p.now.x.now p.now.z.now d (Segment g t)) list.old list.new }
{
    let line = segment(&p.net, g, t, before, curves);
    let v = p.net.layout.column_count();
    put_row(list, d, v, line, p.x, p.z);
}

// The segments of generator g; so many segments and cost columns are before its own.
fn segments_of(
    list: &mut Triplets<'_>,
    p: &Point<'_>,
    d: bool,
    g: usize,
    before: usize,
    curves: usize,
)
    requires g_lt_k { g < p.now.net.layout.k }
    requires before_value { (before ≡ sum g (grid p.now.net).segments) × (curves ≡ count g (grid p.now.net).piecewise) }
    requires room { list.old.at + length (each ((grid p.now.net).segments g) (λ t. row_entries (grid p.now.net) p.now.x.now p.now.z.now d (Segment g t))) < 2 ^ 64 }
    ensures { Puts (each ((grid p.now.net).segments g) (λ t. row_entries (grid p.now.net) p.now.x.now p.now.z.now d (Segment g t))) list.old list.new }
{
    let r = p.net.generator(g);
    let n = r.segments();
    for t in 0..n {
        segment_row(list, p, d, g, t, before, curves);
    }
}

pub fn segment_rows(list: &mut Triplets<'_>, p: &Point<'_>, d: bool)
    requires room { list.old.at + length (each p.now.net.layout.k (λ g. each ((grid p.now.net).segments g) (λ t. row_entries (grid p.now.net) p.now.x.now p.now.z.now d (Segment g t)))) < 2 ^ 64 }
    ensures { Puts (each p.now.net.layout.k (λ g. each ((grid p.now.net).segments g) (λ t. row_entries (grid p.now.net) p.now.x.now p.now.z.now d (Segment g t)))) list.old list.new }
{
    let mut before = 0;
    let mut curves = 0;
    for g in 0..p.net.layout.k {
        segments_of(list, p, d, g, before, curves);
        let r = p.net.generator(g);
        before += r.segments();
        curves += usize::from(r.piecewise());
    }
}
