// The ids of elements.
ghost use Rattle.std.specs.Prelude.{◌≡◌, true};
ghost use Rattle.records.specs.Network.{Accepted};
ghost use Rattle.records.specs.Case.{case_network};
ghost use Rattle.elements.specs.Ids.{element_id, on_axis};

use crate::ElementId;
use interface::Axis;
use records::{Case, Record};

// Kept: n, m and k side by side, no layout: the definition is of a case's counts, and a layout's would first have to be shown to be the same.
pub fn on_axis(n: usize, m: usize, k: usize, axis: Axis, i: usize) -> bool
    ensures { result ≡ on_axis n m k axis i }
{
    match axis {
        Axis::Bus => i < n,
        Axis::Branch => i < m,
        Axis::Generator => i < k,
        Axis::Constraint => true,
    }
}

pub fn id_of(case: Case<'_>, axis: Axis, i: usize) -> ElementId
    requires accepted { Accepted case.n case.m case.k case.s case.bytes.now }
    requires i_value { on_axis case.n case.m case.k axis i ≡ true }
    ensures { result ≡ element_id (case_network case.entry) axis i }
{
    let Case { n, m, bytes, .. } = case;
    let end = n + m;
    match axis {
        Axis::Bus => ElementId::Bus(Record { bytes, r: i }.id()),
        Axis::Branch => ElementId::Branch(Record { bytes, r: n + i }.id()),
        Axis::Generator => ElementId::Generator(Record { bytes, r: end + i }.id()),
        Axis::Constraint => ElementId::Constraint(i as u64),
    }
}
