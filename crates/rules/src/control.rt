ghost use Rattle.std.specs.Prelude.{◌≡◌, ok_or};
ghost use Rattle.rules.specs.ControlRules.{attempted_at, expired, expiry_of, fell_back, online_switched, overdue_at, switch_of, switched, went_offline, went_online};
ghost use Rattle.rules.specs.Views.{view};
ghost use Rattle.rules.specs.declared.state.Effects.{Effects as Pages};
ghost use Rattle.setup.specs.declared.refusal.Refusal.TheVariants.{Unknown};

use crate::event::Event;
use crate::send::our_header;
use crate::state::{Core, Effects, Next, SessionRequest};
use setup::refusal::Refusal;
use states::control::{Control, Mode};
use states::link::{Link, LinkEvent};
use store::Store;

// The operator's switches; their numbers are `switch_of` of specs/ControlRules.antt.
#[derive(Clone, Copy, PartialEq, Eq, Debug)]
pub enum Switch {
    Enable,
    Disable,
    Online,
    Offline,
    Local,
    Remote,
}

// The timers that expire; their numbers are `expiry_of` of specs/ControlRules.antt.
#[derive(Clone, Copy, PartialEq, Eq, Debug)]
pub enum Expiry {
    // The delay between two attempts to establish communications.
    CommDelay,
    // The wait for a reply on stream 1.
    SessionReply,
    // The wait for the reply to a report.
    ReportReply,
}

impl TryFrom<u32> for Switch {
    type Error = Refusal;

    ghost try_from_gives = { λ number result. result ≡ ok_or (switch_of number) (Unknown number) };

    fn try_from(number: u32) -> Result<Switch, Refusal> {
        match number {
            1 => Ok(Switch::Enable),
            2 => Ok(Switch::Disable),
            3 => Ok(Switch::Online),
            4 => Ok(Switch::Offline),
            5 => Ok(Switch::Local),
            6 => Ok(Switch::Remote),
            _ => Err(Refusal::Unknown { number }),
        }
    }
}

impl TryFrom<u32> for Expiry {
    type Error = Refusal;

    ghost try_from_gives = { λ number result. result ≡ ok_or (expiry_of number) (Unknown number) };

    fn try_from(number: u32) -> Result<Expiry, Refusal> {
        match number {
            1 => Ok(Expiry::CommDelay),
            2 => Ok(Expiry::SessionReply),
            3 => Ok(Expiry::ReportReply),
            _ => Err(Refusal::Unknown { number }),
        }
    }
}

impl<Q: Store, S: Store> Core<Q, S> {
    // An attempt to go on-line fails.
    pub fn fall_back(&mut self)
        ensures { (e : Pages) → view Q.Store S.Store self.new e ≡ fell_back (view Q.Store S.Store self.old e) }
    {
        if self.state.control == Control::Attempt {
            self.state.control = Control::from(self.state.settings.fallback);
        }
    }

    // Control goes on-line, to where the switch stands.
    #[tactic(auto, unfolding(crate::specs::ControlRules::went_online))]
    pub fn go_online(&mut self, next: Next, effects: &mut Effects)
        ensures { view Q.Store S.Store self.new effects.new ≡ went_online next (view Q.Store S.Store self.old effects.old) }
    {
        let mode = self.state.mode;
        self.state.control = Control::from(mode);
        match mode {
            Mode::Local => self.report_event(next, Event::LocalEntered, effects),
            Mode::Remote => self.report_event(next, Event::RemoteEntered, effects),
        }
    }

    // Control leaves ON-LINE for an off-line state.
    #[tactic(auto, unfolding(crate::specs::ControlRules::went_offline))]
    pub fn go_offline(&mut self, next: Next, control: Control, effects: &mut Effects)
        ensures { view Q.Store S.Store self.new effects.new ≡ went_offline next control (view Q.Store S.Store self.old effects.old) }
    {
        self.report_event(next, Event::OnlineLeft, effects);
        self.state.control = control;
    }

    // The switch ONLINE.
    fn switch_online(&mut self, next: Next, effects: &mut Effects)
        ensures { view Q.Store S.Store self.new effects.new ≡ online_switched next self.old.state.control (view Q.Store S.Store self.old effects.old) }
    {
        if self.state.control != Control::EquipmentOffline {
            return;
        }
        match self.state.link {
            Link::Communicating => {
                self.state.control = Control::Attempt;
                self.ask(next, SessionRequest::AreYouThere, effects);
            }
            Link::Disabled | Link::WaitCra | Link::WaitDelay => {
                self.state.control = Control::from(self.state.settings.fallback);
            }
        }
    }

    // The operator moves a switch.
    #[tactic(auto, unfolding(crate::specs::ControlRules::switched))]
    pub fn switch(&mut self, next: Next, switch: Switch, effects: &mut Effects)
        ensures { view Q.Store S.Store self.new effects.new ≡ switched next switch (view Q.Store S.Store self.old effects.old) }
    {
        let control = self.state.control;
        match (switch, control) {
            (Switch::Enable, _) => self.move_link(next, LinkEvent::Enable, effects),
            (Switch::Disable, _) => {
                self.fall_back();
                self.move_link(next, LinkEvent::Disable, effects);
            }
            (Switch::Online, _) => self.switch_online(next, effects),
            (Switch::Offline, Control::HostOffline | Control::Local | Control::Remote) => {
                self.go_offline(next, Control::EquipmentOffline, effects);
            }
            (Switch::Offline, _) => {}
            (Switch::Local, _) => {
                self.state.mode = Mode::Local;
                if control == Control::Remote {
                    self.go_online(next, effects);
                }
            }
            (Switch::Remote, _) => {
                self.state.mode = Mode::Remote;
                if control == Control::Local {
                    self.go_online(next, effects);
                }
            }
        }
    }

    // A timer expires.
    #[tactic(auto, unfolding(crate::specs::ControlRules::expired))]
    pub fn expire(&mut self, next: Next, expiry: Expiry, effects: &mut Effects)
        ensures { view Q.Store S.Store self.new effects.new ≡ expired next expiry (view Q.Store S.Store self.old effects.old) }
    {
        match expiry {
            Expiry::CommDelay => self.move_link(next, LinkEvent::DelayOver, effects),
            Expiry::SessionReply => {
                self.fall_back();
                self.move_link(next, LinkEvent::NoReply, effects);
            }
            Expiry::ReportReply => {
                if let Some(sent) = self.reports.pending.take() {
                    let header = our_header(
                        &self.state.settings,
                        true,
                        sent.stream,
                        sent.function,
                        sent.transaction,
                    );
                    self.tell_fault(next, 9, header, effects);
                }
            }
        }
    }
}
