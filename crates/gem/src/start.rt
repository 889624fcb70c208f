ghost use Rattle.std.specs.Prelude.{◌≡◌, []};
ghost use Rattle.gem.specs.Runs.{Outcome};
ghost use Rattle.gem.specs.Starts.{check_of, fit_of, fresh_reports, fresh_state};
ghost use Rattle.spooling.specs.Holdings.{shelf};
ghost use Rattle.spooling.specs.declared.state.Reports.{Reports as Held};

use crate::equipment::Equipment;
use rules::state::{Core, Counts, State};
use setup::plan::Setup;
use setup::refusal::{Refusal, answer};
use setup::settings::Settings;
use spooling::state::{Reports, Spooling};
use states::control::{Control, Mode};
use states::link::Link;
use store::Store;

// Whether two stores are fit for an equipment.
fn is_fit<Q: Store, S: Store>(queue: &Q, spool: &S) -> bool
    ensures { result ≡ fit_of (shelf Q.Store queue.now) (shelf S.Store spool.now) }
{
    queue.count() == 0
        && spool.count() == 0
        && (1..=8).contains(&queue.capacity())
        && (1..=60_000).contains(&spool.capacity())
}

// Whether an equipment can be started on these stores: code 0, else 1; detail 0. Nothing is used up.
pub fn check<Q: Store, S: Store>(queue: &Q, spool: &S) -> (u8, usize)
    ensures { result ≡ check_of (shelf Q.Store queue.now) (shelf S.Store spool.now) }
{
    answer(if is_fit(queue, spool) {
        Ok(())
    } else {
        Err(Refusal::Unfit)
    })
}

impl<Q: Store, S: Store> Equipment<Q, S> {
    // Starts an equipment. One that is started on stores that the check refuses answers every call with 1.
    pub fn start(setup: Setup, settings: Settings, queue: Q, spool: S) -> Equipment<Q, S>
        ensures fit { result.fit ≡ fit_of (shelf Q.Store queue) (shelf S.Store spool) }
        ensures state { result.core.state ≡ fresh_state setup settings }
        ensures reports { result.core.reports ≡ fresh_reports queue spool }
        ensures begun { Outcome Q.Store S.Store (record { setup = setup; settings = settings; queue = shelf Q.Store queue; spool = shelf S.Store spool }) [] result.fit result.core }
    {
        let fit = is_fit(&queue, &spool);
        let state = State {
            link: Link::Disabled,
            control: Control::EquipmentOffline,
            mode: Mode::Remote,
            session: None,
            counts: Counts::default(),
            setup,
            settings,
        };
        let reports = Reports {
            queue,
            spool,
            spooling: Spooling::default(),
            pending: None,
        };
        Equipment {
            fit,
            core: Core { state, reports },
        }
    }

    // Ends the equipment and gives queue and spool back as they are.
    pub fn into_stores(self) -> (Q, S)
        ensures { result ≡ (self.core.reports.queue, self.core.reports.spool) }
    {
        let Equipment { fit: _, core } = self;
        let Core { state: _, reports } = core;
        let Reports {
            queue,
            spool,
            spooling: _,
            pending: _,
        } = reports;
        (queue, spool)
    }
}
