// What is wrong with one record: 3, 4 or 5 of document 01.
ghost use Rattle.std.specs.Prelude.{◌≡◌, ◌≤◌};
ghost use Rattle.records.specs.Check.{zero_floats, bus_form, branch_form, gen_form, segment_form, bus_cause, branch_cause, gen_cause, segment_cause};

use records::{Kind, Record};
use refusals::{Refusal, refuse_unless};

// Whether the floats of a record from the j-th on are zero bits.
fn zero_floats(r: Record<'_>, j: usize) -> bool
    requires { j ≤ 14 }
    ensures { result ≡ zero_floats r.entry.bytes.now r.entry.r j }
{
    (j..14).all(|i| r.bits(i) == 0)
}

// Kept: each kind has a form and a cause of its own: what they test differs, as do their definitions.
#[tactic(auto, unfolding(records::specs::Check::bus_form))]
fn bus_form(r: Record<'_>) -> bool
    ensures { result ≡ bus_form r.entry.bytes.now r.entry.r }
{
    (r.kind() == Kind::Bus as u16)
        & (r.flags() < 2)
        & (r.count() == 0)
        & (r.first() == 0)
        & (r.second() == 0)
        & zero_floats(r, 6)
}

#[tactic(auto, unfolding(records::specs::Check::branch_form))]
fn branch_form(r: Record<'_>) -> bool
    ensures { result ≡ branch_form r.entry.bytes.now r.entry.r }
{
    (r.kind() == Kind::Branch as u16) & (r.flags() < 4) & (r.count() == 0)
}

#[tactic(auto, unfolding(records::specs::Check::gen_form))]
fn gen_form(r: Record<'_>) -> bool
    ensures { result ≡ gen_form r.entry.bytes.now r.entry.r }
{
    (r.kind() == Kind::Generator as u16)
        & (r.flags() < 4)
        & (r.piecewise() | (r.count() == 0))
        & (r.second() == 0)
        & zero_floats(r, 7)
}

#[tactic(auto, unfolding(records::specs::Check::segment_form))]
fn segment_form(r: Record<'_>) -> bool
    ensures { result ≡ segment_form r.entry.bytes.now r.entry.r }
{
    (r.kind() == Kind::Segment as u16)
        & (r.flags() == 0)
        & (r.count() == 0)
        & (r.id() == 0)
        & (r.first() == 0)
        & (r.second() == 0)
        & zero_floats(r, 2)
}

#[tactic(auto, unfolding(records::specs::Check::bus_cause))]
pub fn bus_cause(r: Record<'_>) -> Result<(), Refusal>
    ensures { result ≡ bus_cause r.entry.bytes.now r.entry.r }
{
    refuse_unless(bus_form(r), Refusal::BadRecord(r.r as u64))
}

#[tactic(auto, unfolding(records::specs::Check::branch_cause))]
pub fn branch_cause(n: usize, r: Record<'_>) -> Result<(), Refusal>
    ensures { result ≡ branch_cause n r.entry.bytes.now r.entry.r }
{
    refuse_unless(branch_form(r), Refusal::BadRecord(r.r as u64))?;
    let from = r.br_from() as usize;
    let to = r.br_to() as usize;
    refuse_unless((from < n) & (to < n), Refusal::NoSuchBus(r.r as u64))?;
    refuse_unless(from != to, Refusal::EqualEnds(r.r as u64))
}

#[tactic(auto, unfolding(records::specs::Check::gen_cause))]
pub fn gen_cause(n: usize, r: Record<'_>) -> Result<(), Refusal>
    ensures { result ≡ gen_cause n r.entry.bytes.now r.entry.r }
{
    refuse_unless(gen_form(r), Refusal::BadRecord(r.r as u64))?;
    let bus = r.gen_bus() as usize;
    refuse_unless(bus < n, Refusal::NoSuchBus(r.r as u64))
}

#[tactic(auto, unfolding(records::specs::Check::segment_cause))]
pub fn segment_cause(r: Record<'_>) -> Result<(), Refusal>
    ensures { result ≡ segment_cause r.entry.bytes.now r.entry.r }
{
    refuse_unless(segment_form(r), Refusal::BadRecord(r.r as u64))
}
