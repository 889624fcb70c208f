ghost use Rattle.std.specs.Prelude.{◌≡◌, ◌≤◌, [], length, None, ◌≢◌};
ghost use Rattle.replay.specs.Runs.{ReadBack, Rising, after_step, after_steps};
ghost use Rattle.store.specs.Lent.{report_of};
ghost use Rattle.store.specs.Reports.{body_limit, put_number};

use store::Store;
use store::answers::Copied;
use store::report::Report;

// One step on a store as a value: a run is a list of them.
#[derive(Clone, Copy)]
pub enum Step<'a> {
    // A removal of the oldest report.
    Remove,
    // A put of a report.
    Put(Report<'a>),
}

// Takes the steps one after another. From an empty store the list then rises strictly in its numbers and is within the
// capacity.
pub fn replay<S: Store>(store: &mut S, steps: &[Step<'_>])
    ensures list { S.Store.records store.new ≡ after_steps (S.Store.limit store.old) steps.now (S.Store.records store.old) }
    ensures capacity { S.Store.limit store.new ≡ S.Store.limit store.old }
    ensures law { S.Store.records store.old ≡ [] → Rising 0 (S.Store.records store.new) × (length (S.Store.records store.new) ≤ S.Store.limit store.new) }
{
    for step in steps {
        take_step(store, *step);
    }
}

fn take_step<S: Store>(store: &mut S, step: Step<'_>)
    ensures list { S.Store.records store.new ≡ after_step (S.Store.limit store.old) step.entry (S.Store.records store.old) }
    ensures capacity { S.Store.limit store.new ≡ S.Store.limit store.old }
{
    match step {
        Step::Put(report) => {
            let _ = store.put(report);
        }
        Step::Remove => store.remove(),
    }
}

// Puts a report and, where it is taken, removes every older one and reads it back.
pub fn put_and_read<S: Store>(
    store: &mut S,
    report: Report<'_>,
    buffer: &mut [u8],
) -> Option<Copied>
    ensures law { put_number (S.Store.records store.old) (S.Store.limit store.old) (report_of report.entry) ≡ 0 → body_limit ≤ length buffer.old → ReadBack (report_of report.entry) result buffer.old buffer.new (S.Store.records store.new) }
    ensures refused { (put_number (S.Store.records store.old) (S.Store.limit store.old) (report_of report.entry) ≢ 0) → (result ≡ None) × (S.Store.records store.new ≡ S.Store.records store.old) × (buffer.new ≡ buffer.old) }
    ensures capacity { S.Store.limit store.new ≡ S.Store.limit store.old }
{
    store.put(report).ok()?;
    while store.count() > 1 {
        store.remove();
    }
    store.read(buffer)
}
