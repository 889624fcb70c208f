ghost use Rattle.std.specs.Prelude.{◌≡◌, Some};
ghost use Rattle.store.specs.Answers.{answer_number, refusal_text};

use std::error::Error;
use std::fmt;

// Why a put adds nothing.
#[derive(Clone, Copy, PartialEq, Eq, Debug)]
pub enum PutRefusal {
    // The store is at capacity.
    Full,
    // The number is not above the newest that is held.
    Stale,
    // The number is 0 or the body is too long.
    Unfit,
}

impl fmt::Display for PutRefusal {
    ghost output = { λ r. Some (refusal_text r) };

    fn fmt<W: fmt::Write>(&self, f: &mut fmt::Formatter<W>) -> fmt::Result {
        match self {
            PutRefusal::Full => write!(f, "the store is at capacity"),
            PutRefusal::Stale => write!(f, "the number is not above the newest that is held"),
            PutRefusal::Unfit => write!(f, "the number is 0 or the body is too long"),
        }
    }
}

impl Error for PutRefusal {}

// The number of a put's answer. A function: there is no From for a Result of others' types.
pub fn answer_number(answer: Result<(), PutRefusal>) -> u8
    ensures { result ≡ answer_number answer }
{
    match answer {
        Ok(()) => 0,
        Err(PutRefusal::Full) => 1,
        Err(PutRefusal::Stale) => 2,
        Err(PutRefusal::Unfit) => 3,
    }
}

// What a read tells of the report whose body it copied.
#[derive(Clone, Copy, PartialEq, Eq, Debug)]
pub struct Copied {
    pub number: u32,
    pub stream: u8,
    pub function: u8,
    pub length: usize,
}
