ghost use Rattle.makes.specs.Makes.{held_by, limit_of};

use crate::choice::AnyStore;
use store::Store;
use store::answers::{Copied, PutRefusal};
use store::report::Report;

impl Store for AnyStore {
    ghost records = { held_by };

    ghost limit = { limit_of };

    fn put(&mut self, report: Report<'_>) -> Result<(), PutRefusal> {
        match self {
            AnyStore::Slots(ring) => ring.put(report),
            AnyStore::Blocks(blocks) => blocks.put(report),
        }
    }

    fn oldest(&self) -> Option<u32> {
        match self {
            AnyStore::Slots(ring) => ring.oldest(),
            AnyStore::Blocks(blocks) => blocks.oldest(),
        }
    }

    fn read(&self, buffer: &mut [u8]) -> Option<Copied> {
        match self {
            AnyStore::Slots(ring) => ring.read(buffer),
            AnyStore::Blocks(blocks) => blocks.read(buffer),
        }
    }

    fn remove(&mut self) {
        match self {
            AnyStore::Slots(ring) => ring.remove(),
            AnyStore::Blocks(blocks) => blocks.remove(),
        }
    }

    fn count(&self) -> usize {
        match self {
            AnyStore::Slots(ring) => ring.count(),
            AnyStore::Blocks(blocks) => blocks.count(),
        }
    }

    fn capacity(&self) -> usize {
        match self {
            AnyStore::Slots(ring) => ring.capacity(),
            AnyStore::Blocks(blocks) => blocks.capacity(),
        }
    }
}
