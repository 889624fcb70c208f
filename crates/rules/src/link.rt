ghost use Rattle.std.specs.Prelude.{◌≡◌};
ghost use Rattle.rules.specs.LinkRules.{linked, lost, stopped_at, switched_off};
ghost use Rattle.rules.specs.Views.{closed_all, view};
ghost use Rattle.rules.specs.declared.state.Effects.{Effects as Pages};

use crate::event::Event;
use crate::state::{Core, Effects, Next, SessionRequest};
use spooling::state::Unload;
use states::link::{Link, LinkEvent};
use store::Store;

impl<Q: Store, S: Store> Core<Q, S> {
    // Our open transactions close.
    pub fn close_transactions(&mut self)
        ensures { (e : Pages) → view Q.Store S.Store self.new e ≡ closed_all (view Q.Store S.Store self.old e) }
    {
        self.state.session = None;
        self.reports.pending = None;
    }

    // A transmit that is broken off goes to no output.
    fn stop_transmit(&mut self, next: Next, effects: &mut Effects)
        ensures { view Q.Store S.Store self.new effects.new ≡ stopped_at next self.old.reports.spooling.unload (view Q.Store S.Store self.old effects.old) }
    {
        if self.reports.spooling.unload == Unload::Transmit {
            self.reports.spooling.unload = Unload::NoOutput;
            self.report_event(next, Event::TransmitFailed, effects);
        }
    }

    // Communication is lost.
    #[tactic(auto, unfolding(crate::specs::LinkRules::lost))]
    fn lose(&mut self, next: Next, effects: &mut Effects)
        ensures { view Q.Store S.Store self.new effects.new ≡ lost next (view Q.Store S.Store self.old effects.old) }
    {
        self.close_transactions();
        if self.reports.spooling.active {
            self.stop_transmit(next, effects);
        } else {
            let overwrite = self.state.settings.overwrite;
            self.reports.activate(overwrite, &mut effects.journal);
            self.report_event(next, Event::SpoolActivated, effects);
        }
    }

    // Communication is switched off.
    fn switch_off(&mut self, effects: &mut Effects)
        ensures { view Q.Store S.Store self.new effects.new ≡ switched_off (view Q.Store S.Store self.old effects.old) }
    {
        self.close_transactions();
        self.reports.drop_queue(&mut effects.journal);
    }

    // Moves the communications state, with all that follows.
    #[tactic(auto, unfolding(crate::specs::LinkRules::linked))]
    pub fn move_link(&mut self, next: Next, event: LinkEvent, effects: &mut Effects)
        ensures { view Q.Store S.Store self.new effects.new ≡ linked next event (view Q.Store S.Store self.old effects.old) }
    {
        let before = self.state.link;
        self.state.link.step(event);
        match (before, self.state.link) {
            (Link::Communicating, Link::WaitCra) => {
                self.lose(next, effects);
                self.ask(next, SessionRequest::Establish, effects);
            }
            (Link::Disabled | Link::WaitDelay, Link::WaitCra) => {
                self.ask(next, SessionRequest::Establish, effects);
            }
            (Link::WaitCra, Link::WaitDelay) => self.lose(next, effects),
            (Link::WaitCra | Link::WaitDelay | Link::Communicating, Link::Disabled) => {
                self.switch_off(effects);
            }
            _ => {}
        }
    }
}
