ghost use Rattle.std.specs.Prelude.{◌≡◌, is_some};
ghost use Rattle.lines.specs.declared.journal.Journal.{Journal as Pages};
ghost use Rattle.spooling.specs.Holdings.{holding};
ghost use Rattle.spooling.specs.Leaving.{dropped_at, dropped, moved_at, moved, activated, deactivated, purged_at, acknowledged};
ghost use Rattle.store.specs.Reports.{oldest_number};

use crate::oldest::end_oldest;
use crate::state::{Reports, Source, Unload};
use lines::journal::Journal;
use lines::line::Letter;
use store::Store;
use store::oldest::read_oldest;
use store::report::BODY_LIMIT;

impl<Q: Store, S: Store> Reports<Q, S> {
    // The oldest report of the queue is dropped; false where there was none.
    fn drop_oldest(&mut self, journal: &mut Journal) -> bool
        ensures found { result ≡ is_some (oldest_number (Q.Store.records self.old.queue)) }
        ensures after { holding Q.Store S.Store self.new journal.new ≡ dropped_at (oldest_number (Q.Store.records self.old.queue)) (holding Q.Store S.Store self.old journal.old) }
    {
        end_oldest(&mut self.queue, Letter::Dropped, journal).is_some()
    }

    // Every report of the queue is dropped, oldest first.
    pub fn drop_queue(&mut self, journal: &mut Journal)
        ensures { holding Q.Store S.Store self.new journal.new ≡ dropped (holding Q.Store S.Store self.old journal.old) }
    {
        while self.drop_oldest(journal) {}
    }

    // The oldest report of the queue is directed to the spool; false where there was none.
    fn move_oldest(&mut self, overwrite: bool, journal: &mut Journal) -> bool
        ensures found { result ≡ is_some (oldest_number (Q.Store.records self.old.queue)) }
        ensures after { holding Q.Store S.Store self.new journal.new ≡ moved_at overwrite (Q.Store.records self.old.queue) (holding Q.Store S.Store self.old journal.old) }
    {
        let mut buffer = [0; BODY_LIMIT];
        let Some(report) = read_oldest(&self.queue, &mut buffer) else {
            return false;
        };
        self.queue.remove();
        self.direct(report, overwrite, journal);
        true
    }

    // Every report of the queue is directed to the spool, oldest first.
    fn move_queue(&mut self, overwrite: bool, journal: &mut Journal)
        ensures { holding Q.Store S.Store self.new journal.new ≡ moved overwrite (holding Q.Store S.Store self.old journal.old) }
    {
        while self.move_oldest(overwrite, journal) {}
    }

    // An inactive spool becomes active and takes the queue.
    #[tactic(auto, unfolding(crate::specs::Leaving::activated))]
    pub fn activate(&mut self, overwrite: bool, journal: &mut Journal)
        ensures { holding Q.Store S.Store self.new journal.new ≡ activated overwrite (holding Q.Store S.Store self.old journal.old) }
    {
        self.spooling.active = true;
        self.spooling.total = 0;
        self.move_queue(overwrite, journal);
    }

    // The spool becomes inactive.
    pub fn deactivate(&mut self)
        ensures { (j : Pages) → holding Q.Store S.Store self.new j ≡ deactivated (holding Q.Store S.Store self.old j) }
    {
        self.spooling.active = false;
        self.spooling.full = false;
        self.spooling.unload = Unload::NoOutput;
    }

    // The oldest report of the spool is purged; false where there was none, which is all that a pump asks.
    pub fn purge_oldest(&mut self, journal: &mut Journal) -> bool
        ensures found { result ≡ is_some (oldest_number (S.Store.records self.old.spool)) }
        ensures after { holding Q.Store S.Store self.new journal.new ≡ purged_at (oldest_number (S.Store.records self.old.spool)) (holding Q.Store S.Store self.old journal.old) }
    {
        end_oldest(&mut self.spool, Letter::Purged, journal).is_some()
    }

    // The host acknowledged the report that is open: it leaves its store.
    #[tactic(auto, unfolding(crate::specs::Leaving::acknowledged))]
    pub fn acknowledge(&mut self, journal: &mut Journal)
        ensures { holding Q.Store S.Store self.new journal.new ≡ acknowledged (holding Q.Store S.Store self.old journal.old) }
    {
        let Some(sent) = self.pending.take() else {
            return;
        };
        match sent.source {
            Source::Queue => {
                end_oldest(&mut self.queue, Letter::Acknowledged, journal);
            }
            Source::Spool => {
                if end_oldest(&mut self.spool, Letter::SpoolAcknowledged, journal).is_some() {
                    self.spooling.acknowledged = self.spooling.acknowledged.saturating_add(1);
                }
            }
        }
    }
}
