use blocks::block_store::BlockStore;
use store::ring::Ring;

pub mod calls;

// A store of either make, by value: a boxed `dyn Store` would need the heap, which no call of the equipment may.
pub enum AnyStore {
    Slots(Ring),
    Blocks(BlockStore),
}
