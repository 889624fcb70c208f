ghost use Rattle.std.specs.Prelude.{◌≡◌, if◌then◌else◌};
ghost use Rattle.states.specs.Controls.{is_online};
ghost use Rattle.rules.specs.Reporting.{report_made, evented, alarm_reported};
ghost use Rattle.rules.specs.Views.{view};

use crate::event::Event;
use crate::state::{Core, Effects, Next};
use bodies::body::Body;
use bodies::write::{BODY_LIMIT, write_body};
use states::link::Link;
use store::Store;
use store::report::Report;

impl<Q: Store, S: Store> Core<Q, S> {
    // Makes a report and sends it on its way, where control is on-line.
    fn report(&mut self, next: Next, stream: u8, function: u8, body: Body, effects: &mut Effects)
        ensures { view Q.Store S.Store self.new effects.new ≡ (if is_online self.old.state.control then report_made next stream function body (view Q.Store S.Store self.old effects.old) else view Q.Store S.Store self.old effects.old) }
    {
        if !self.state.control.is_online() {
            return;
        }
        let mut bytes = [0; BODY_LIMIT];
        let length = write_body(body, &mut bytes).unwrap();
        let report = Report {
            number: next.report,
            stream,
            function,
            body: &bytes[..length],
        };
        let disabled = self.state.link == Link::Disabled;
        let overwrite = self.state.settings.overwrite;
        self.state.counts.reports = next.report;
        self.reports
            .make(report, disabled, overwrite, &mut effects.journal);
    }

    // Reports an event, where control is on-line.
    #[tactic(auto, unfolding(crate::specs::Reporting::evented))]
    pub fn report_event(&mut self, next: Next, event: Event, effects: &mut Effects)
        ensures { view Q.Store S.Store self.new effects.new ≡ evented next event (view Q.Store S.Store self.old effects.old) }
    {
        let body = Body::Event {
            report: next.report,
            event: event.number(),
        };
        self.report(next, 6, 11, body, effects);
    }

    // Reports an alarm, where control is on-line.
    #[tactic(auto, unfolding(crate::specs::Reporting::alarm_reported))]
    pub fn report_alarm(&mut self, next: Next, alcd: u8, alarm: u32, effects: &mut Effects)
        ensures { view Q.Store S.Store self.new effects.new ≡ alarm_reported next alcd alarm (view Q.Store S.Store self.old effects.old) }
    {
        let body = Body::Alarm { alcd, alarm };
        self.report(next, 5, 1, body, effects);
    }
}
