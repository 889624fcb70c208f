ghost use Rattle.std.specs.Prelude.{◌≡◌};
ghost use Rattle.states.specs.Links.{link_after};

// The communications states.
#[derive(Clone, Copy, PartialEq, Eq, Debug)]
pub enum Link {
    Disabled,
    WaitCra,
    WaitDelay,
    Communicating,
}

// What can move the communications state.
#[derive(Clone, Copy, PartialEq, Eq, Debug)]
pub enum LinkEvent {
    // The operator's switches ENABLE and DISABLE.
    Enable,
    Disable,
    // The connection failed.
    Failure,
    // The delay between two attempts is over.
    DelayOver,
    // The reply to our S1,F13 did not come in time.
    NoReply,
    // The host sent S1,F13.
    HostEstablishes,
    // The host answered our S1,F13 with COMMACK 0.
    Accepted,
    // The host answered our S1,F13 with another COMMACK.
    Denied,
    // Any other frame of the host.
    OtherFrame,
}

impl Link {
    // Moves as the table of specs/Links.antt says.
    pub fn step(&mut self, event: LinkEvent)
        ensures { self.new ≡ link_after self.old event }
    {
        *self = match (*self, event) {
            (Link::Disabled, LinkEvent::Enable) => Link::WaitCra,
            (Link::Disabled, _) => Link::Disabled,
            (_, LinkEvent::Disable) => Link::Disabled,
            (Link::WaitCra, LinkEvent::Failure | LinkEvent::NoReply | LinkEvent::Denied) => {
                Link::WaitDelay
            }
            (Link::WaitCra, LinkEvent::HostEstablishes | LinkEvent::Accepted) => {
                Link::Communicating
            }
            (Link::WaitDelay, LinkEvent::DelayOver | LinkEvent::OtherFrame) => Link::WaitCra,
            (Link::WaitDelay, LinkEvent::HostEstablishes) => Link::Communicating,
            (Link::Communicating, LinkEvent::Failure) => Link::WaitCra,
            (same, _) => same,
        };
    }
}
