use lines::journal::Journal;
use sending::outbox::Outbox;
use setup::plan::Setup;
use setup::settings::Settings;
use spooling::state::Reports;
use states::control::{Control, Mode};
use states::link::Link;

// What our stream-1 primaries ask of the host.
#[derive(Clone, Copy, PartialEq, Eq, Debug)]
pub enum SessionRequest {
    // S1,F1: are you there.
    AreYouThere,
    // S1,F13: establish communications.
    Establish,
}

// The stream-1 transaction of ours that is open.
#[derive(Clone, Copy, PartialEq, Eq, Debug)]
pub struct OpenSession {
    pub transaction: u32,
    pub request: SessionRequest,
}

// The numbers of the last primary and of the last report of ours.
#[derive(Clone, Copy, PartialEq, Eq, Debug, Default)]
pub struct Counts {
    pub transactions: u32,
    pub reports: u32,
}

// The numbers that our next primary and our next report take.
#[derive(Clone, Copy, PartialEq, Eq, Debug)]
pub struct Next {
    pub transaction: u32,
    pub report: u32,
}

// The state of the equipment beside its two stores.
#[derive(Drop)]
pub struct State {
    pub link: Link,
    pub control: Control,
    // Where the operator's LOCAL/REMOTE switch stands.
    pub mode: Mode,
    pub session: Option<OpenSession>,
    pub counts: Counts,
    pub setup: Setup,
    pub settings: Settings,
}

// The equipment without what it remembers of its start.
pub struct Core<Q, S> {
    pub state: State,
    pub reports: Reports<Q, S>,
}

// What a call writes: its ledger lines and the frame that it sends. `Next` is passed beside it: in one struct with what is
// written, each rule would also have to promise that the numbers stay. The core, which outlives a call, is passed beside both.
#[derive(Clone, Copy)]
pub struct Effects {
    pub journal: Journal,
    pub outbox: Outbox,
}
