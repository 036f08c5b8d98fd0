// The lengths of the cones, in Clarabel's order of rows.
ghost use Rattle.std.specs.Prelude.{◌≡◌, ◌+◌, ◌*◌, ◌≤◌, ◌<◌, length, get_or};
ghost use Rattle.lists.specs.UpTo.{overlay};
ghost use Rattle.refusals.specs.Refusals.{room_for, answer_if, left_in};
ghost use Rattle.records.specs.Case.{case_check, case_network};
ghost use Rattle.numbering.specs.Numbering.{cone_lengths};
ghost use Rattle.numbering.specs.Layout.{InRange, layout_of, layout_cause};
ghost use Rattle.numbering.specs.Lookups.{cones_of, cone_count, cones_check};

use crate::SocWrLayout;
use records::Case;
use refusals::{Refusal, room_for};

// The length of cone i, of those behind the zero and the nonnegative cone.
fn second_order_length(l: SocWrLayout, i: usize) -> u32
    requires { (2 ≤ i) × (i < cone_count l) }
    ensures { result ≡ get_or (cones_of l) i 0 }
{
    if i - 2 < l.m {
        return 4;
    }
    3
}

// Kept: a layout in range is asked alone, as at the layout's methods: `SocWrLayout::cones` has no records for a network.
// All lengths, at the front of out.
// Kept: a loop with a test, no fill of the fours and of the threes: an edit of the test shows where the threes begin.
fn cones_into(l: SocWrLayout, out: &mut [u32])
    requires { (InRange l) × (cone_count l ≤ length out.old) }
    ensures { out.new ≡ overlay (cones_of l) out.old }
{
    out[0] = l.zero_rows();
    out[1] = l.nonnegative_rows();
    for i in 2..2 + l.m + 2 * l.t {
        out[i] = second_order_length(l, i);
    }
}

// The lengths of a layout in range, where there is room for them.
fn cones_in(l: SocWrLayout, out: &mut [u32]) -> Result<u64, Refusal>
    requires { InRange l }
    ensures value { result ≡ answer_if (room_for (cone_count l) (length out.old)) (cone_count l) }
    ensures out_after { out.new ≡ left_in (room_for (cone_count l) (length out.old)) (cones_of l) out.old }
{
    let need = 2 + l.m + 2 * l.t;
    room_for(need, out.len())?;
    cones_into(l, out);
    Ok(need as u64)
}

impl SocWrLayout {
    // The cones' lengths into the front of out: zero, nonnegative, four for each branch, twice three for each limited branch.
    pub fn cones(self, out: &mut [u32]) -> Result<u64, Refusal>
        ensures value { result ≡ answer_if (cones_check (layout_cause self) self out.old) (cone_count self) }
        ensures out_after { out.new ≡ left_in (cones_check (layout_cause self) self out.old) (cones_of self) out.old }
    {
        self.cause()?;
        cones_in(self, out)
    }
}

// The same on a case.
pub fn cones(case: Case<'_>, out: &mut [u32]) -> Result<u64, Refusal>
    ensures value { result ≡ answer_if (cones_check (case_check case.entry) (layout_of (case_network case.entry)) out.old) (cone_count (layout_of (case_network case.entry))) }
    ensures out_after { out.new ≡ left_in (cones_check (case_check case.entry) (layout_of (case_network case.entry)) out.old) (cone_lengths (case_network case.entry)) out.old }
{
    cones_in(SocWrLayout::new(case)?, out)
}
