ghost use Rattle.std.specs.Prelude.{◌≡◌};
ghost use Rattle.lines.specs.Journals.{lines_of};
ghost use Rattle.spooling.specs.Ending.{ended};
ghost use Rattle.store.specs.Reports.{oldest_number, after_remove};

use lines::journal::Journal;
use lines::line::Letter;
use store::Store;

// The oldest report of a store leaves it, and a line says why. Answers its number; an empty store stays as it is.
pub(crate) fn end_oldest<T: Store>(
    store: &mut T,
    letter: Letter,
    journal: &mut Journal,
) -> Option<u32>
    ensures number { result ≡ oldest_number (T.Store.records store.old) }
    ensures list { T.Store.records store.new ≡ after_remove (T.Store.records store.old) }
    ensures same { T.Store.limit store.new ≡ T.Store.limit store.old }
    ensures line { lines_of journal.new ≡ ended letter result (lines_of journal.old) }
{
    let number = store.oldest()?;
    store.remove();
    journal.note(letter, number);
    Some(number)
}
