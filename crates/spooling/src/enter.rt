ghost use Rattle.std.specs.Prelude.{◌≡◌};
ghost use Rattle.spooling.specs.Entering.{overwritten, directed, enqueued, routed, made};
ghost use Rattle.spooling.specs.Holdings.{holding};
ghost use Rattle.store.specs.Lent.{report_of};

use crate::oldest::end_oldest;
use crate::state::{Reports, Source};
use lines::journal::Journal;
use lines::line::Letter;
use store::Store;
use store::report::Report;

// `overwrite` is a setting of the equipment and the journal is one call's, so that the two are no struct.
impl<Q: Store, S: Store> Reports<Q, S> {
    // The oldest report of the spool gives way to a newer one; where it is open, it closes.
    pub fn overwrite_oldest(&mut self, journal: &mut Journal)
        ensures { holding Q.Store S.Store self.new journal.new ≡ overwritten (holding Q.Store S.Store self.old journal.old) }
    {
        if end_oldest(&mut self.spool, Letter::Overwritten, journal).is_some() {
            self.pending = self.pending.filter(|sent| sent.source != Source::Spool);
        }
    }

    // A report for the spool: stored, or turned away where the spool is full and does not overwrite.
    #[tactic(auto, unfolding(crate::specs::Entering::directed))]
    pub fn direct(&mut self, report: Report<'_>, overwrite: bool, journal: &mut Journal)
        ensures { holding Q.Store S.Store self.new journal.new ≡ directed overwrite (report_of report.entry) (holding Q.Store S.Store self.old journal.old) }
    {
        let at_capacity = self.spool.count() >= self.spool.capacity();
        self.spooling.total = self.spooling.total.saturating_add(1);
        self.spooling.full |= at_capacity;
        if self.spooling.full && !overwrite {
            journal.note(Letter::TurnedAway, report.number);
        } else {
            if at_capacity {
                self.overwrite_oldest(journal);
            }
            let _ = self.spool.put(report);
        }
    }

    // A report for the queue, dropped where the queue does not take it.
    pub fn enqueue(&mut self, report: Report<'_>, journal: &mut Journal)
        ensures { holding Q.Store S.Store self.new journal.new ≡ enqueued (report_of report.entry) (holding Q.Store S.Store self.old journal.old) }
    {
        if self.queue.put(report).is_err() {
            journal.note(Letter::Dropped, report.number);
        }
    }

    // A report that was just made: its line, and then its way.
    #[tactic(auto, unfolding(crate::specs::Entering::routed))]
    pub fn make(
        &mut self,
        report: Report<'_>,
        disabled: bool,
        overwrite: bool,
        journal: &mut Journal,
    )
        ensures { holding Q.Store S.Store self.new journal.new ≡ made disabled overwrite (report_of report.entry) (holding Q.Store S.Store self.old journal.old) }
    {
        journal.note(Letter::Made, report.number);
        if disabled {
            journal.note(Letter::Dropped, report.number);
        } else if self.spooling.active {
            self.direct(report, overwrite, journal);
        } else {
            self.enqueue(report, journal);
        }
    }
}
