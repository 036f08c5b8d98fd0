// The lists of x, as parts of the x that is lent.
ghost use Rattle.std.specs.Prelude.{◌≡◌};
ghost use Rattle.numbering.specs.Layout.{layout_column};
ghost use Rattle.reading.specs.Reading.{part_column, part_count, part_of};

use crate::SolutionList;
use crate::checks::check_part;
use numbering::{Network, SocWrLayout};
use records::Case;

// The first column of a list, and how many it has.
fn start_of(net: &Network<'_>, part: SolutionList) -> u32
    ensures { result ≡ layout_column net.now.layout (part_column part 0) }
{
    let l = net.layout;
    match part {
        SolutionList::Pg => l.pg_column(0),
        SolutionList::Qg => l.qg_column(0),
        SolutionList::W => l.w_column(0),
        SolutionList::Wr => l.wr_column(0),
        SolutionList::Wi => l.wi_column(0),
        SolutionList::Pf => l.pf_column(0),
        SolutionList::Pt => l.pt_column(0),
        SolutionList::Qf => l.qf_column(0),
        SolutionList::Qt => l.qt_column(0),
    }
}

fn count_of(l: SocWrLayout, part: SolutionList) -> usize
    ensures { result ≡ part_count l.n l.m l.k part }
{
    match part {
        SolutionList::Pg => l.k,
        SolutionList::Qg => l.k,
        SolutionList::W => l.n,
        SolutionList::Wr => l.m,
        SolutionList::Wi => l.m,
        SolutionList::Pf => l.m,
        SolutionList::Pt => l.m,
        SolutionList::Qf => l.m,
        SolutionList::Qt => l.m,
    }
}

// The list as a part of x; the empty part where `part_check` refuses.
pub fn part<'a>(case: Case<'_>, x: &'a [f64], part: SolutionList) -> &'a [f64]
    ensures { result.now ≡ part_of case.entry.n case.entry.m case.entry.k case.entry.s case.entry.bytes.now x.now part }
{
    let Ok(net) = check_part(case, x) else {
        return &x[..0];
    };
    let l = net.layout;
    let start = start_of(&net, part) as usize;
    let end = start + count_of(l, part);
    &x[start..end]
}
