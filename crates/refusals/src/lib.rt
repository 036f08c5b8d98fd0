// The causes that turn an input away. A check answers a Result<(), Refusal>, an entry that writes a Result<u64, Refusal> with the count.
#![tactic(auto)]

ghost use Rattle.std.specs.Prelude.{◌≡◌};
ghost use Rattle.refusals.specs.Refusals.{cause_number, cause_value, refuse_unless, room_for};

// A cause of document 01. What a case holds is the value returned with its number.
// Kept: CountTooLarge's 0..5 and SolutionLength's 0 or 1 are numbers, which document 01 returns; an enum would be turned back to them.
#[derive(Clone, Copy)]
pub enum Refusal {
    // 1: which of n, m, k, S, T, cost columns is too large, as 0..5
    CountTooLarge(u64),
    // 2: the length of the slice
    RecordsLength(u64),
    // 3: the record; for the sum of the counts n + m + k + S
    BadRecord(u64),
    // 4: the record
    NoSuchBus(u64),
    // 5: the record
    EqualEnds(u64),
    // 6: 0 for x, else 1
    SolutionLength(u64),
    // 7: the index
    PastEnd(u64),
    // 8: the generator's id
    PiecewiseCost(u64),
    // 9: a parameter or operand that SOCWR lacks
    NotInSocWr,
    // 10: the length needed by the first short one
    OutputTooShort(u64),
    // 11
    ModeAuto,
    // 12
    BadLists,
    // 13
    InputTooLong,
}

// Kept: number_of and value_of have names, since a refusal has two numbers, and `u64::from` would name neither.
// Document 01's number of a cause.
pub fn number_of(r: Refusal) -> u64
    ensures { result ≡ cause_number r }
{
    match r {
        Refusal::CountTooLarge(_) => 1,
        Refusal::RecordsLength(_) => 2,
        Refusal::BadRecord(_) => 3,
        Refusal::NoSuchBus(_) => 4,
        Refusal::EqualEnds(_) => 5,
        Refusal::SolutionLength(_) => 6,
        Refusal::PastEnd(_) => 7,
        Refusal::PiecewiseCost(_) => 8,
        Refusal::NotInSocWr => 9,
        Refusal::OutputTooShort(_) => 10,
        Refusal::ModeAuto => 11,
        Refusal::BadLists => 12,
        Refusal::InputTooLong => 13,
    }
}

// The value that document 01 returns with the number.
pub fn value_of(r: Refusal) -> u64
    ensures { result ≡ cause_value r }
{
    match r {
        Refusal::CountTooLarge(which) => which,
        Refusal::RecordsLength(length) => length,
        Refusal::BadRecord(record) => record,
        Refusal::NoSuchBus(record) => record,
        Refusal::EqualEnds(record) => record,
        Refusal::SolutionLength(list) => list,
        Refusal::PastEnd(index) => index,
        Refusal::PiecewiseCost(id) => id,
        Refusal::NotInSocWr => 0,
        Refusal::OutputTooShort(need) => need,
        Refusal::ModeAuto => 0,
        Refusal::BadLists => 0,
        Refusal::InputTooLong => 512,
    }
}

// A check's answer: passed where the test holds, and else refused for that cause.
#[tactic(auto, unfolding(crate::specs::Refusals::refuse_unless))]
pub fn refuse_unless(ok: bool, cause: Refusal) -> Result<(), Refusal>
    ensures { result ≡ refuse_unless ok cause }
{
    if ok { Ok(()) } else { Err(cause) }
}

// Whether an output of the length that is there holds what is needed.
pub fn room_for(need: usize, there: usize) -> Result<(), Refusal>
    ensures { result ≡ room_for need there }
{
    refuse_unless(need <= there, Refusal::OutputTooShort(need as u64))
}
