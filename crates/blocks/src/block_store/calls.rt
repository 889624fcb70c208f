ghost use Rattle.std.specs.Prelude.{◌≡◌, true};
ghost use Rattle.store.specs.Answers.{answer_number};
ghost use Rattle.store.specs.Lent.{report_of};
ghost use Rattle.store.specs.Reports.{put_number, after_put, after_remove};
ghost use Rattle.blocks.specs.Blocks.{blocks_of, by_number, intact, capacity_of, held_in, bytes_after_put, bytes_after_remove};
ghost use Rattle.blocks.specs.Stores.{bytes_of, reports_of};

use crate::block::{BLOCK, block_of, report_in};
use crate::block_store::BlockStore;
use crate::scan::{highest_number, lowest_number, place_of, sound_blocks, used_count};
use octets::copy_at;
use store::Store;
use store::answers::{Copied, PutRefusal};
use store::report::{BODY_LIMIT, Report};

impl BlockStore {
    // A store over the bytes as they are.
    pub fn new(bytes: Vec<u8>) -> BlockStore
        ensures memory { result.bytes ≡ bytes }
        ensures capacity { result.blocks ≡ capacity_of bytes.items }
        ensures list { reports_of result ≡ held_in (capacity_of bytes.items) bytes.items }
    {
        let blocks = sound_blocks(&bytes);
        BlockStore { bytes, blocks }
    }

    // The bytes, as puts and removals left them. A store made of them is the same again.
    pub fn into_bytes(self) -> Vec<u8>
        ensures memory { result ≡ self.bytes }
        ensures capacity { capacity_of result.items ≡ self.blocks }
        ensures list { held_in (capacity_of result.items) result.items ≡ reports_of self }
    {
        self.bytes
    }

    // The blocks that hold the reports.
    fn blocks(&self) -> &[[u8; BLOCK]]
        ensures cut { result.now ≡ blocks_of self.now.blocks (bytes_of self.now) }
        ensures whole { intact result.now ≡ true }
        ensures list { by_number result.now ≡ reports_of self.now }
    {
        let (blocks, _) = self.bytes.as_chunks::<BLOCK>();
        &blocks[..self.blocks]
    }
}

impl Store for BlockStore {
    ghost records = { reports_of };

    ghost limit = { λ s. s.blocks };

    fn put(&mut self, report: Report<'_>) -> Result<(), PutRefusal>
        ensures answer { answer_number result ≡ put_number (reports_of self.old) self.old.blocks (report_of report.entry) }
        ensures list { reports_of self.new ≡ after_put (reports_of self.old) self.old.blocks (report_of report.entry) }
        ensures same { self.new.blocks ≡ self.old.blocks }
        ensures bytes { bytes_of self.new ≡ bytes_after_put self.old.blocks (bytes_of self.old) (report_of report.entry) }
    {
        if report.number == 0 || report.body.len() > BODY_LIMIT {
            return Err(PutRefusal::Unfit);
        }
        if highest_number(self.blocks()).is_some_and(|newest| report.number <= newest) {
            return Err(PutRefusal::Stale);
        }
        let place = place_of(self.blocks(), 0).ok_or(PutRefusal::Full)?;
        copy_at(&mut self.bytes, place * BLOCK, &block_of(report));
        Ok(())
    }

    #[tactic(auto, using(crate::proofs::Scanning::oldest_is))]
    fn oldest(&self) -> Option<u32> {
        lowest_number(self.blocks())
    }

    #[tactic(auto, using(crate::proofs::Scanning::oldest_is))]
    fn read(&self, buffer: &mut [u8]) -> Option<Copied> {
        let blocks = self.blocks();
        let number = lowest_number(blocks)?;
        let place = place_of(blocks, number)?;
        report_in(&blocks[place]).copy_out(buffer)
    }

    #[tactic(auto, using(crate::proofs::Scanning::oldest_is))]
    fn remove(&mut self)
        ensures list { reports_of self.new ≡ after_remove (reports_of self.old) }
        ensures same { self.new.blocks ≡ self.old.blocks }
        ensures bytes { bytes_of self.new ≡ bytes_after_remove self.old.blocks (bytes_of self.old) }
    {
        let Some(number) = lowest_number(self.blocks()) else {
            return;
        };
        let Some(place) = place_of(self.blocks(), number) else {
            return;
        };
        copy_at(&mut self.bytes, place * BLOCK, &[0; BLOCK]);
    }

    #[tactic(auto, using(crate::proofs::Scanning::used_are))]
    fn count(&self) -> usize {
        used_count(self.blocks())
    }

    fn capacity(&self) -> usize {
        self.blocks
    }
}
