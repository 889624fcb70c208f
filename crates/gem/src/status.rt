ghost use Rattle.std.specs.Prelude.{◌≡◌};
ghost use Rattle.gem.specs.Calls.{found};
ghost use Rattle.gem.specs.Statuses.{status_of};

use crate::equipment::Equipment;
use rules::state::{Counts, OpenSession};
use spooling::state::{OpenReport, Spooling};
use states::control::{Control, Mode};
use states::link::Link;
use store::Store;

// What an equipment tells of its state.
#[derive(Clone, Copy)]
pub struct Status {
    pub link: Link,
    pub control: Control,
    // Where the operator's LOCAL/REMOTE switch stands.
    pub mode: Mode,
    // The spool's state, with SpoolCountTotal.
    pub spooling: Spooling,
    // SpoolCountActual.
    pub actual: usize,
    pub queued: usize,
    pub counts: Counts,
    // The transactions of ours that are open.
    pub session: Option<OpenSession>,
    pub pending: Option<OpenReport>,
}

impl<Q: Store, S: Store> Equipment<Q, S> {
    // The state of the equipment.
    pub fn status(&self) -> Status
        ensures { result ≡ status_of (found Q.Store S.Store self.now.core) }
    {
        Status {
            link: self.core.state.link,
            control: self.core.state.control,
            mode: self.core.state.mode,
            spooling: self.core.reports.spooling,
            actual: self.core.reports.spool.count(),
            queued: self.core.reports.queue.count(),
            counts: self.core.state.counts,
            session: self.core.state.session,
            pending: self.core.reports.pending,
        }
    }
}
