ghost use Rattle.std.specs.Prelude.{◌≡◌};
ghost use Rattle.actions.specs.Pumps.{opened_from, posted_from, pumped, ready_state, report_sent_from, spool_ended, transmit_pumped};
ghost use Rattle.rules.specs.Views.{view};
ghost use Rattle.sending.specs.Sending.{sent_by};
ghost use Rattle.store.specs.Reports.{oldest_number};

use rules::event::Event;
use rules::send::our_header;
use rules::state::{Core, Effects, Next};
use sending::outbox::Outbox;
use setup::settings::Settings;
use spooling::state::{OpenReport, Source, Unload};
use states::link::Link;
use store::Store;
use store::oldest::read_oldest;
use store::report::BODY_LIMIT;

// Sends the oldest report of a store, which keeps it. Answers the report as it is open from now on.
pub fn post_oldest<T: Store>(
    store: &T,
    settings: &Settings,
    source: Source,
    transaction: u32,
    outbox: &mut Outbox,
) -> Option<OpenReport>
    ensures answer { result ≡ opened_from source transaction (T.Store.records store.now) }
    ensures after { sent_by outbox.new ≡ posted_from settings.now transaction (T.Store.records store.now) (sent_by outbox.old) }
{
    let mut buffer = [0; BODY_LIMIT];
    let report = read_oldest(store, &mut buffer)?;
    let header = our_header(settings, true, report.stream, report.function, transaction);
    outbox.post_bytes(header, report.body);
    Some(OpenReport {
        transaction,
        source,
        stream: report.stream,
        function: report.function,
    })
}

// Sends the oldest report of the queue or of the spool; the two may be of two types, so that the call stands twice.
fn send_report<Q: Store, S: Store>(
    core: &mut Core<Q, S>,
    next: Next,
    source: Source,
    effects: &mut Effects,
)
    ensures { view Q.Store S.Store core.new effects.new ≡ report_sent_from next source (view Q.Store S.Store core.old effects.old) }
{
    let settings = core.state.settings;
    let sent = match source {
        Source::Queue => post_oldest(
            &core.reports.queue,
            &settings,
            source,
            next.transaction,
            &mut effects.outbox,
        ),
        Source::Spool => post_oldest(
            &core.reports.spool,
            &settings,
            source,
            next.transaction,
            &mut effects.outbox,
        ),
    };
    if let Some(report) = sent {
        core.state.counts.transactions = next.transaction;
        core.reports.pending = Some(report);
    }
}

// The spool becomes inactive.
fn end_spool<Q: Store, S: Store>(core: &mut Core<Q, S>, next: Next, effects: &mut Effects)
    ensures { view Q.Store S.Store core.new effects.new ≡ spool_ended next (view Q.Store S.Store core.old effects.old) }
{
    core.reports.deactivate();
    core.report_event(next, Event::SpoolDeactivated, effects);
}

// Whether a report may be sent now.
fn is_ready<Q: Store, S: Store>(core: &Core<Q, S>) -> bool
    ensures { result ≡ ready_state core.now.state.link core.now.state.control core.now.reports.pending }
{
    core.state.link == Link::Communicating
        && core.state.control.is_online()
        && core.reports.pending.is_none()
}

// One step of a transmit.
fn pump_transmit<Q: Store, S: Store>(core: &mut Core<Q, S>, next: Next, effects: &mut Effects)
    ensures { view Q.Store S.Store core.new effects.new ≡ transmit_pumped next (oldest_number (S.Store.records core.old.reports.spool)) (view Q.Store S.Store core.old effects.old) }
{
    match core.reports.spool.oldest() {
        None => end_spool(core, next, effects),
        Some(_) => {
            let most = u32::from(core.state.settings.max_transmit);
            if most != 0 && most <= core.reports.spooling.acknowledged {
                core.reports.spooling.unload = Unload::NoOutput;
            } else {
                send_report(core, next, Source::Spool, effects);
            }
        }
    }
}

// One step of what the spool unloads, or of the queue.
#[tactic(auto, unfolding(crate::specs::Pumps::pumped))]
pub fn pump<Q: Store, S: Store>(core: &mut Core<Q, S>, next: Next, effects: &mut Effects)
    ensures { view Q.Store S.Store core.new effects.new ≡ pumped next (view Q.Store S.Store core.old effects.old) }
{
    match core.reports.spooling.unload {
        Unload::Purge => {
            if !core.reports.purge_oldest(&mut effects.journal) {
                end_spool(core, next, effects);
            }
        }
        Unload::Transmit => {
            if is_ready(core) {
                pump_transmit(core, next, effects);
            }
        }
        Unload::NoOutput => {
            if is_ready(core) && !core.reports.spooling.active {
                send_report(core, next, Source::Queue, effects);
            }
        }
    }
}
