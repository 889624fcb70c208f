ghost use Rattle.std.specs.Prelude.{◌≡◌, ℕ, ◌+◌, ◌<◌, List, [], length, vec_len, MatchOption};
ghost use Rattle.std.specs.Option.{option_copied};
ghost use Rattle.store.specs.Reports.{newest_number};
ghost use Rattle.store.specs.Rings.{report_in, reports_of, slot_place};

use crate::Store;
use crate::answers::{Copied, PutRefusal};
use crate::record::Record;
use crate::report::{BODY_LIMIT, Report};
use crate::ring::Ring;

impl Ring {
    // An empty ring over these slots; as many as there are, so many reports it holds.
    pub fn new(slots: Vec<Record>) -> Ring
        ensures empty { reports_of result ≡ [] }
        ensures memory { result.slots ≡ slots }
    {
        Ring {
            slots,
            first: 0,
            count: 0,
        }
    }

    // The slots, given back.
    pub fn into_slots(self) -> Vec<Record>
        ensures { result ≡ self.slots }
    {
        let Ring {
            slots: memory,
            first: _,
            count: _,
        } = self;
        memory
    }

    // The place of the slot that is `k` after the first one.
    fn slot(&self, k: usize) -> usize
        requires { k < vec_len self.now.slots }
        ensures { result ≡ slot_place self.now.first (vec_len self.now.slots) k }
    {
        let ahead = self.slots.len() - self.first;
        if k < ahead { self.first + k } else { k - ahead }
    }

    // The slot of the newest report.
    fn newest(&self) -> Option<&Record>
        ensures { MatchOption (option_copied result) (reports_of self.now ≡ []) (λ s. (report_in s).number ≡ newest_number (reports_of self.now)) }
    {
        if self.count == 0 {
            return None;
        }
        let last = self.slot(self.count - 1);
        Some(&self.slots[last])
    }
}

impl Store for Ring {
    ghost records = { reports_of };

    ghost limit = { λ s. vec_len s.slots };

    // Each make finds its newest report and its room in its own way, so that the three refusals stand in each. The body's length
    // is judged here too, so that a put that is refused makes no record.
    fn put(&mut self, report: Report<'_>) -> Result<(), PutRefusal> {
        if report.number == 0 || report.body.len() > BODY_LIMIT {
            return Err(PutRefusal::Unfit);
        }
        if self
            .newest()
            .is_some_and(|newest| report.number <= newest.number())
        {
            return Err(PutRefusal::Stale);
        }
        if self.count >= self.slots.len() {
            return Err(PutRefusal::Full);
        }
        let Some(filled) = Record::new(report) else {
            return Err(PutRefusal::Unfit);
        };
        let at = self.slot(self.count);
        self.slots[at] = filled;
        self.count += 1;
        Ok(())
    }

    fn oldest(&self) -> Option<u32> {
        if self.count == 0 {
            return None;
        }
        Some(self.slots[self.first].number())
    }

    fn read(&self, buffer: &mut [u8]) -> Option<Copied> {
        if self.count == 0 {
            return None;
        }
        self.slots[self.first].copy_out(buffer)
    }

    fn remove(&mut self) {
        if self.count == 0 {
            return;
        }
        let next = self.first + 1;
        self.first = if next < self.slots.len() { next } else { 0 };
        self.count -= 1;
    }

    fn count(&self) -> usize {
        self.count
    }

    fn capacity(&self) -> usize {
        self.slots.len()
    }
}
