ghost use Rattle.std.specs.Prelude.{◌≡◌};
ghost use Rattle.rules.specs.Events.{event_number};

// What an event report is about; its number is `event_number` of specs/Events.antt.
#[derive(Clone, Copy, PartialEq, Eq, Debug)]
pub enum Event {
    OnlineLeft,
    LocalEntered,
    RemoteEntered,
    SpoolActivated,
    SpoolDeactivated,
    TransmitFailed,
    // The alarm of a number.
    AlarmSet(u8),
    AlarmCleared(u8),
    // A band of the variable of a number.
    ZoneMoved(u8),
}

impl Event {
    // By name: u32::from would not say that it is the event's number.
    pub fn number(self) -> u32
        ensures { result ≡ event_number self }
    {
        match self {
            Event::OnlineLeft => 1,
            Event::LocalEntered => 2,
            Event::RemoteEntered => 3,
            Event::SpoolActivated => 4,
            Event::SpoolDeactivated => 5,
            Event::TransmitFailed => 6,
            Event::AlarmSet(alarm) => 100 + u32::from(alarm),
            Event::AlarmCleared(alarm) => 200 + u32::from(alarm),
            Event::ZoneMoved(variable) => 300 + u32::from(variable),
        }
    }
}
