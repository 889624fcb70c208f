ghost use Rattle.std.specs.Prelude.{◌≡◌};
ghost use Rattle.gem.specs.Faults.{answer_of};
ghost use Rattle.gem.specs.declared.fault.Fault.TheVariants.{Refused, Told};

use requests::request::FrameFault;
use setup::refusal::Refusal;

// Why a call is not done.
#[derive(Clone, Copy, PartialEq, Eq, Debug)]
pub enum Fault {
    // The call is refused, and all is as it was.
    Refused(Refusal),
    // A frame of the host is at fault, and the host was told.
    Told(FrameFault),
}

impl From<Refusal> for Fault {
    ghost from_gives = { λ refusal fault. fault ≡ Refused refusal };

    fn from(refusal: Refusal) -> Fault {
        Fault::Refused(refusal)
    }
}

impl From<FrameFault> for Fault {
    ghost from_gives = { λ frame_fault fault. fault ≡ Told frame_fault };

    fn from(frame_fault: FrameFault) -> Fault {
        Fault::Told(frame_fault)
    }
}

// What a call answers first: 0 and 0, or code and detail of its fault.
pub(crate) fn answer(done: Result<(), Fault>) -> (u8, usize)
    ensures { result ≡ answer_of done }
{
    match done {
        Ok(()) => (0, 0),
        Err(Fault::Refused(refusal)) => (refusal.code(), refusal.detail()),
        Err(Fault::Told(fault)) => (fault.code(), fault.place()),
    }
}
