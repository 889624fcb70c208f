ghost use Rattle.std.specs.Prelude.{◌≡◌};
ghost use Rattle.host.specs.Grants.{alarm_granted, granted, online_granted, unload_answer, unload_granted};
ghost use Rattle.spooling.specs.Holdings.{with_spooling};
ghost use Rattle.rules.specs.Views.{view};
ghost use Rattle.setup.specs.Tables.{entry_at};

use crate::acknowledge::Acknowledge;
use bodies::body::Body;
use frames::header::Header;
use requests::request::Request;
use rules::state::{Core, Effects, Next};
use setup::plan::Alarm;
use spooling::state::{Spooling, Unload};
use states::control::Control;
use store::Store;

// S1,F17.
fn grant_online<Q: Store, S: Store>(
    core: &mut Core<Q, S>,
    next: Next,
    header: Header,
    effects: &mut Effects,
)
    ensures { view Q.Store S.Store core.new effects.new ≡ online_granted next header core.old.state.control (view Q.Store S.Store core.old effects.old) }
{
    let answer = match core.state.control {
        Control::HostOffline => {
            core.go_online(next, effects);
            Acknowledge::OnlineAccepted
        }
        Control::Local | Control::Remote => Acknowledge::AlreadyOnline,
        Control::EquipmentOffline | Control::Attempt => Acknowledge::OnlineNotAllowed,
    };
    core.reply(header, 18, Body::from(answer), effects);
}

// S5,F3.
fn grant_alarm<Q: Store, S: Store>(
    core: &mut Core<Q, S>,
    header: Header,
    enable: bool,
    number: u32,
    effects: &mut Effects,
)
    ensures { view Q.Store S.Store core.new effects.new ≡ alarm_granted header enable number (entry_at core.old.state.setup.alarms.entries number) (view Q.Store S.Store core.old effects.old) }
{
    let answer = match core.state.setup.alarms.get(number) {
        None => Acknowledge::AlarmUnknown,
        Some(alarm) => {
            let changed = Alarm {
                enabled: enable,
                ..alarm
            };
            core.state.setup.alarms.set(number, changed);
            Acknowledge::AlarmAccepted
        }
    };
    core.reply(header, 4, Body::from(answer), effects);
}

// What S6,F23 is answered.
fn unload_answer<Q: Store, S: Store>(core: &Core<Q, S>) -> Acknowledge
    ensures { result ≡ unload_answer core.now.reports.spooling }
{
    if !core.reports.spooling.active {
        return Acknowledge::NothingSpooled;
    }
    match core.reports.spooling.unload {
        Unload::NoOutput => Acknowledge::UnloadGranted,
        Unload::Transmit | Unload::Purge => Acknowledge::UnloadBusy,
    }
}

// S6,F23: where it is granted, the spool's state is `begun`.
fn grant_unload<Q: Store, S: Store>(
    core: &mut Core<Q, S>,
    header: Header,
    begun: Spooling,
    effects: &mut Effects,
)
    ensures { view Q.Store S.Store core.new effects.new ≡ unload_granted header (unload_answer core.old.reports.spooling) (with_spooling begun (view Q.Store S.Store core.old effects.old).held) (view Q.Store S.Store core.old effects.old) }
{
    let answer = unload_answer(core);
    if answer == Acknowledge::UnloadGranted {
        core.reports.spooling = begun;
    }
    core.reply(header, 24, Body::from(answer), effects);
}

// Does what a request of the host asks for, and replies.
#[tactic(auto, unfolding(crate::specs::Grants::granted))]
pub fn grant<Q: Store, S: Store>(
    core: &mut Core<Q, S>,
    next: Next,
    header: Header,
    request: Request,
    effects: &mut Effects,
)
    ensures { view Q.Store S.Store core.new effects.new ≡ granted next header request (view Q.Store S.Store core.old effects.old) }
{
    match request {
        Request::AreYouThere => core.reply(header, 2, Body::Identity, effects),
        Request::Establish => core.reply(header, 14, Body::Accepted, effects),
        Request::GoOffline => {
            core.go_offline(next, Control::HostOffline, effects);
            let answer = Acknowledge::OfflineAccepted;
            core.reply(header, 16, Body::from(answer), effects);
        }
        Request::GoOnline => grant_online(core, next, header, effects),
        Request::EnableAlarm { enable, alarm } => grant_alarm(core, header, enable, alarm, effects),
        Request::Transmit => {
            let begun = Spooling {
                unload: Unload::Transmit,
                acknowledged: 0,
                ..core.reports.spooling
            };
            grant_unload(core, header, begun, effects);
        }
        Request::Purge => {
            let begun = Spooling {
                unload: Unload::Purge,
                ..core.reports.spooling
            };
            grant_unload(core, header, begun, effects);
        }
    }
}
