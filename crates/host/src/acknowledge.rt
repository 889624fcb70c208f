ghost use Rattle.std.specs.Prelude.{◌≡◌};
ghost use Rattle.host.specs.Acknowledges.{acknowledge_byte, acknowledging};

use bodies::body::Body;

// What a request of the host is answered; the byte is `acknowledge_byte` of specs/Acknowledges.antt.
#[derive(Clone, Copy, PartialEq, Eq, Debug)]
pub enum Acknowledge {
    // OFLACK, of S1,F16.
    OfflineAccepted,
    // ONLACK, of S1,F18.
    OnlineAccepted,
    OnlineNotAllowed,
    AlreadyOnline,
    // ACKC5, of S5,F4.
    AlarmAccepted,
    AlarmUnknown,
    // RSDA, of S6,F24.
    UnloadGranted,
    UnloadBusy,
    NothingSpooled,
}

impl Acknowledge {
    // By name: u8::from would not say that it is the byte of the reply.
    pub fn byte(self) -> u8
        ensures { result ≡ acknowledge_byte self }
    {
        match self {
            Acknowledge::OfflineAccepted
            | Acknowledge::OnlineAccepted
            | Acknowledge::AlarmAccepted
            | Acknowledge::UnloadGranted => 0,
            Acknowledge::OnlineNotAllowed | Acknowledge::AlarmUnknown | Acknowledge::UnloadBusy =>
                1,
            Acknowledge::AlreadyOnline | Acknowledge::NothingSpooled => 2,
        }
    }
}

impl From<Acknowledge> for Body {
    ghost from_gives = { λ answer body. body ≡ acknowledging answer };

    fn from(answer: Acknowledge) -> Body {
        Body::Acknowledge(answer.byte())
    }
}
