// What the spool does with the reports that it holds.
#[derive(Clone, Copy, PartialEq, Eq, Debug, Default)]
pub enum Unload {
    #[default]
    NoOutput,
    Transmit,
    Purge,
}

// The spool's state beside its list. The rules stand for every value of the five, not only for those that a run reaches,
// so `active` is no enum around the others.
#[derive(Clone, Copy, PartialEq, Eq, Debug, Default)]
pub struct Spooling {
    pub active: bool,
    // A report met the spool at capacity since it became active.
    pub full: bool,
    pub unload: Unload,
    // How many reports were directed to the spool since it became active.
    pub total: u32,
    // How many reports the host acknowledged since this transmit began.
    pub acknowledged: u32,
}

// The store that a report was sent from.
#[derive(Clone, Copy, PartialEq, Eq, Debug)]
pub enum Source {
    Queue,
    Spool,
}

// A report that was sent and not yet answered. It is the oldest of the store that it came from.
#[derive(Clone, Copy, PartialEq, Eq, Debug)]
pub struct OpenReport {
    pub transaction: u32,
    pub source: Source,
    pub stream: u8,
    pub function: u8,
}

// The reports that wait for the host or lie in the spool.
pub struct Reports<Q, S> {
    pub queue: Q,
    pub spool: S,
    pub spooling: Spooling,
    pub pending: Option<OpenReport>,
}
