// Stores of reports: what every make of store promises, and the ring.
#![tactic(auto)]

ghost use Rattle.std.specs.Prelude.{◌≡◌, ℕ, List, length};
ghost use Rattle.store.specs.Answers.{Reads, answer_number};
ghost use Rattle.store.specs.Reports.{Report as Kept, oldest_number, put_number, after_put, after_remove};
ghost use Rattle.store.specs.Lent.{report_of};

use crate::answers::{Copied, PutRefusal};
use crate::report::Report;

pub mod answers;
pub mod oldest;
pub mod record;
pub mod report;
pub mod ring;

// A list of reports, oldest first, of a capacity that never changes.
pub trait Store {
    ghost records: { Self → List Kept };

    ghost limit: { Self → ℕ };

    // Adds a report at the end, or says why not and changes nothing.
    fn put(&mut self, report: Report<'_>) -> Result<(), PutRefusal>
        ensures answer { answer_number result ≡ put_number (records self.old) (limit self.old) (report_of report.entry) }
        ensures list { records self.new ≡ after_put (records self.old) (limit self.old) (report_of report.entry) }
        ensures same { limit self.new ≡ limit self.old };

    // The number of the oldest report.
    fn oldest(&self) -> Option<u32>
        ensures { result ≡ oldest_number (records self.now) };

    // Copies the oldest report's body to the front of `buffer` and tells the rest of it.
    fn read(&self, buffer: &mut [u8]) -> Option<Copied>
        ensures { Reads (records self.now) result buffer.old buffer.new };

    // Takes the oldest report away.
    fn remove(&mut self)
        ensures list { records self.new ≡ after_remove (records self.old) }
        ensures same { limit self.new ≡ limit self.old };

    // How many reports are held.
    fn count(&self) -> usize
        ensures { result ≡ length (records self.now) };

    // How many reports can be held.
    fn capacity(&self) -> usize
        ensures { result ≡ limit self.now };
}
