ghost use Rattle.std.specs.Prelude.{◌≡◌, ◌<◌, ◌≤◌, max, OnOk};
ghost use Rattle.gem.specs.Alarms.{alarm_told, alarmed};
ghost use Rattle.gem.specs.Calls.{call_turn};
ghost use Rattle.gem.specs.Faults.{answer_of};
ghost use Rattle.gem.specs.Turns.{admission, host_turn, next_after};
ghost use Rattle.rules.specs.Views.{view};
ghost use Rattle.setup.specs.Refusals.{answer_of as refusal_answer};

use crate::equipment::{Call, Equipment};
use crate::fault::Fault;
use actions::power::power;
use actions::pump::pump;
use actions::sample::take_sample;
use frames::frame::split_frame;
use host::take::take_frame;
use rules::control::{Expiry, Switch};
use rules::event::Event;
use rules::state::{Core, Counts, Effects, Next};
use setup::plan::Alarm;
use setup::refusal::Refusal;
use states::link::LinkEvent;
use store::Store;

// The refusals that all calls share, in their order, or the numbers that our next primary and our next report take.
fn admit(fit: bool, out: usize, ledger: usize, counts: Counts) -> Result<Next, Refusal>
    ensures answer { result ≡ admission fit out ledger counts }
    ensures bounded { OnOk result ((counts.transactions ≤ 4294967000) × (counts.reports ≤ 4294967000)) }
{
    if !fit {
        Err(Refusal::Unfit)
    } else if out < 512 {
        Err(Refusal::ShortBuffer { length: out })
    } else if ledger < 32 {
        Err(Refusal::ShortLedger { length: ledger })
    } else if counts.transactions > 4_294_967_000 || counts.reports > 4_294_967_000 {
        Err(Refusal::CountsSpent)
    } else {
        Ok(next_of(counts))
    }
}

// The numbers that our next primary and our next report take.
fn next_of(counts: Counts) -> Next
    requires { (counts.transactions < 4294967295) × (counts.reports < 4294967295) }
    ensures { result ≡ next_after counts }
{
    Next {
        transaction: counts.transactions + 1,
        report: counts.reports + 1,
    }
}

// The report of an alarm that changed, where it is enabled.
#[tactic(auto, unfolding(rules::specs::Reporting::alarm_reported))]
fn tell_alarm<Q: Store, S: Store>(
    core: &mut Core<Q, S>,
    next: Next,
    number: u32,
    alarm: Alarm,
    set: bool,
    effects: &mut Effects,
)
    ensures after { view Q.Store S.Store core.new effects.new ≡ alarm_told next number alarm set (view Q.Store S.Store core.old effects.old) }
    ensures transactions { core.new.state.counts.transactions ≡ core.old.state.counts.transactions }
    ensures reports { core.new.state.counts.reports ≤ max core.old.state.counts.reports next.report }
{
    if alarm.enabled {
        let low = alarm.category % 128;
        let alcd = if set { low + 128 } else { low };
        core.report_alarm(next, alcd, number, effects);
    }
}

// An alarm is set or cleared.
#[tactic(auto, unfolding(crate::specs::Alarms::alarmed))]
fn change_alarm<Q: Store, S: Store>(
    core: &mut Core<Q, S>,
    number: u32,
    set: bool,
    effects: &mut Effects,
) -> Result<(), Refusal>
    requires { (core.old.state.counts.transactions ≤ 4294967000) × (core.old.state.counts.reports ≤ 4294967000) }
    ensures answer { refusal_answer result ≡ ((alarmed number set (view Q.Store S.Store core.old effects.old)).code, (alarmed number set (view Q.Store S.Store core.old effects.old)).detail) }
    ensures after { view Q.Store S.Store core.new effects.new ≡ (alarmed number set (view Q.Store S.Store core.old effects.old)).after }
{
    let alarms = &mut core.state.setup.alarms;
    let alarm = alarms.get(number).ok_or(Refusal::Unknown { number })?;
    if alarm.set == set {
        return Ok(());
    }
    alarms.set(number, Alarm { set, ..alarm });
    let next = next_of(core.state.counts);
    tell_alarm(core, next, number, alarm, set, effects);
    let alarm_number = number as u8;
    let event = if set {
        Event::AlarmSet(alarm_number)
    } else {
        Event::AlarmCleared(alarm_number)
    };
    let next = next_of(core.state.counts);
    core.report_event(next, event, effects);
    Ok(())
}

// A frame of the host.
fn take_host<Q: Store, S: Store>(
    core: &mut Core<Q, S>,
    next: Next,
    frame: &[u8],
    effects: &mut Effects,
) -> Result<(), Fault>
    ensures answer { answer_of result ≡ ((host_turn next frame.now (view Q.Store S.Store core.old effects.old)).code, (host_turn next frame.now (view Q.Store S.Store core.old effects.old)).detail) }
    ensures after { view Q.Store S.Store core.new effects.new ≡ (host_turn next frame.now (view Q.Store S.Store core.old effects.old)).after }
{
    let length = frame.len();
    if length > 490 {
        return Err(Fault::Refused(Refusal::FrameLength { length }));
    }
    let header = split_frame(frame)
        .ok_or(Refusal::FrameLength { length })?
        .header;
    if header.ptype != 0 {
        return Err(Fault::Refused(Refusal::HeaderByte { place: 4 }));
    }
    if header.stype != 0 {
        return Err(Fault::Refused(Refusal::HeaderByte { place: 5 }));
    }
    take_frame(core, next, header, frame, effects)?;
    Ok(())
}

impl<Q: Store, S: Store> Equipment<Q, S> {
    // Does what a call asks for, with an output buffer and a ledger of these lengths.
    pub(crate) fn act(
        &mut self,
        call: Call<'_>,
        out: usize,
        ledger: usize,
        effects: &mut Effects,
    ) -> Result<(), Fault>
        ensures answer { answer_of result ≡ ((call_turn self.old.fit out ledger call.entry (view Q.Store S.Store self.old.core effects.old)).code, (call_turn self.old.fit out ledger call.entry (view Q.Store S.Store self.old.core effects.old)).detail) }
        ensures after { view Q.Store S.Store self.new.core effects.new ≡ (call_turn self.old.fit out ledger call.entry (view Q.Store S.Store self.old.core effects.old)).after }
        ensures fit { self.new.fit ≡ self.old.fit }
    {
        let core = &mut self.core;
        let next = admit(self.fit, out, ledger, core.state.counts)?;
        match call {
            Call::Host(frame) => take_host(core, next, frame, effects)?,
            Call::Switch(number) => core.switch(next, Switch::try_from(number)?, effects),
            Call::Expiry(number) => core.expire(next, Expiry::try_from(number)?, effects),
            Call::Failure => {
                core.fall_back();
                core.move_link(next, LinkEvent::Failure, effects);
            }
            Call::Sample(number, sample) => take_sample(core, next, number, sample, effects)?,
            Call::Alarm(number, set) => change_alarm(core, number, set, effects)?,
            Call::Pump => pump(core, next, effects),
            Call::Power => power(core, effects),
        }
        Ok(())
    }
}
