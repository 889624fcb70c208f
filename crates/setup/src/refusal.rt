ghost use Rattle.std.specs.Prelude.{◌≡◌};
ghost use Rattle.setup.specs.Refusals.{answer_of, refusal_code, refusal_detail};

use zone::places::BandRefusal;
use zone::variable::SampleFault;

// Why a call of the equipment or an adding to a setup is refused; code and detail are in specs/Refusals.antt.
#[derive(Clone, Copy, PartialEq, Eq, Debug)]
pub enum Refusal {
    // The stores were not fit at the start.
    Unfit,
    // The output buffer is too short.
    ShortBuffer { length: usize },
    // The ledger is too short.
    ShortLedger { length: usize },
    // The transaction count or the report count is spent.
    CountsSpent,
    // No switch, expiry, alarm or variable has the number.
    Unknown { number: u32 },
    // The sample is none of its variable.
    Sample { variable: u32, fault: SampleFault },
    // The host's frame is too short or too long.
    FrameLength { length: usize },
    // Header byte 4 or 5 of the host's frame is not zero.
    HeaderByte { place: usize },
    // The entry of a setup is outside its range, taken already, or a band of an unknown variable or of bounds that make none.
    Entry { number: u32, fault: BandRefusal },
}

// The numbers go by name: a From would not say which of the two it gives.
impl Refusal {
    pub fn code(self) -> u8
        ensures { result ≡ refusal_code self }
    {
        match self {
            Refusal::Unfit => 1,
            Refusal::ShortBuffer { .. } => 2,
            Refusal::ShortLedger { .. } => 3,
            Refusal::CountsSpent => 4,
            Refusal::Unknown { .. } => 5,
            Refusal::Sample { fault, .. } => fault.code(),
            Refusal::FrameLength { .. } => 8,
            Refusal::HeaderByte { .. } => 9,
            Refusal::Entry { fault, .. } => fault.code(),
        }
    }

    // The number, the length or the place at fault, or 0.
    pub fn detail(self) -> usize
        ensures { result ≡ refusal_detail self }
    {
        match self {
            Refusal::Unfit | Refusal::CountsSpent => 0,
            Refusal::ShortBuffer { length }
            | Refusal::ShortLedger { length }
            | Refusal::FrameLength { length } => length,
            Refusal::HeaderByte { place } => place,
            Refusal::Unknown { number } | Refusal::Entry { number, .. } => number as usize,
            Refusal::Sample { variable, .. } => variable as usize,
        }
    }
}

// What an adding to a setup, or the check before the start, answers: 0 and 0, or code and detail of a refusal. Plain
// numbers are what those who call the bench are promised.
pub fn answer(done: Result<(), Refusal>) -> (u8, usize)
    ensures { result ≡ answer_of done }
{
    match done {
        Ok(()) => (0, 0),
        Err(refusal) => (refusal.code(), refusal.detail()),
    }
}
