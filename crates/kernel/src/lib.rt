// The entries for callers in C, one module for each part of the header include/socwr.h. They only pass on what the libraries answer.
// Kept: structs of a number and a value (Answer, Scalar, Sizes, Name, Selector), no Result: the C interface fixes their fields.
// Kept: entries of one shape (here, in programs, readings, sens) are alike: each has its name and promise in C, and is one call; joined, the call would be a parameter.
// Kept: a `From` for each kind of answer here and in sens, one match each: each holds something else, said by its own record in specs.
#![tactic(auto)]

ghost use Rattle.std.specs.Prelude.{◌≡◌};
ghost use Rattle.kernel.specs.Cases.{case_of};
ghost use Rattle.kernel.specs.Answers.{CauseAnswer, CheckedAnswer, WrittenAnswer, LookupAnswer, ElementAnswer};
ghost use Rattle.kernel.specs.Scalars.{ScalarAnswer};

use elements::ElementId;
use records::Case;
use refusals::{Refusal, number_of, value_of};

pub mod combinations;
pub mod kkt_matrix;
pub mod numbers;
pub mod programs;
pub mod readings;
pub mod sens;

// Number 0 and the answer, or the number of the cause and the value returned with it.
#[repr(C)]
#[derive(Clone, Copy)]
pub struct Answer {
    pub number: u64,
    pub value: u64,
}

// The same with a number as the answer, 0.0 on a refusal.
#[repr(C)]
#[derive(Clone, Copy)]
pub struct Scalar {
    pub number: u64,
    pub value: u64,
    pub result: f64,
}

// The case that a caller lends.
// Kept: counts and records side by side: the C interface hands them over so.
pub(crate) fn case_of<'a>(n: u64, m: u64, k: u64, s: u64, records: &'a [u8]) -> Case<'a>
    ensures { result ≡ case_of n m k s records.entry }
{
    Case {
        n: n as usize,
        m: m as usize,
        k: k as usize,
        s: s as usize,
        bytes: records,
    }
}

impl From<Refusal> for Answer {
    ghost from_gives = { CauseAnswer };

    fn from(cause: Refusal) -> Answer {
        Answer {
            number: number_of(cause),
            value: value_of(cause),
        }
    }
}

impl From<Result<(), Refusal>> for Answer {
    ghost from_gives = { CheckedAnswer };

    fn from(check: Result<(), Refusal>) -> Answer {
        match check {
            Ok(()) => Answer {
                number: 0,
                value: 0,
            },
            Err(cause) => Answer::from(cause),
        }
    }
}

impl From<Result<u64, Refusal>> for Answer {
    ghost from_gives = { WrittenAnswer };

    fn from(written: Result<u64, Refusal>) -> Answer {
        match written {
            Ok(value) => Answer { number: 0, value },
            Err(cause) => Answer::from(cause),
        }
    }
}

// None is 2^64 - 1.
impl From<Result<Option<u32>, Refusal>> for Answer {
    ghost from_gives = { LookupAnswer };

    fn from(lookup: Result<Option<u32>, Refusal>) -> Answer {
        match lookup {
            Ok(number) => Answer {
                number: 0,
                value: number.map_or(u64::MAX, u64::from),
            },
            Err(cause) => Answer::from(cause),
        }
    }
}

impl From<Result<ElementId, Refusal>> for Answer {
    ghost from_gives = { ElementAnswer };

    fn from(element: Result<ElementId, Refusal>) -> Answer {
        match element {
            Ok(id) => Answer {
                number: 0,
                value: match id {
                    ElementId::Bus(id) => u64::from(id),
                    ElementId::Branch(id) => u64::from(id),
                    ElementId::Generator(id) => u64::from(id),
                    ElementId::Constraint(index) => index,
                },
            },
            Err(cause) => Answer::from(cause),
        }
    }
}

impl From<Result<f64, Refusal>> for Scalar {
    ghost from_gives = { ScalarAnswer };

    fn from(scalar: Result<f64, Refusal>) -> Scalar {
        match scalar {
            Ok(result) => Scalar {
                number: 0,
                value: 0,
                result,
            },
            Err(cause) => Scalar {
                number: number_of(cause),
                value: value_of(cause),
                result: 0.0,
            },
        }
    }
}
