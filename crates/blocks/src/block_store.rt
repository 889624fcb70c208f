ghost use Rattle.std.specs.Prelude.{◌≡◌, ◌*◌, ◌≤◌, true, vec_len};
ghost use Rattle.blocks.specs.Blocks.{blocks_of, intact, distinct, capacity_of};

pub mod calls;

// A store over the first `blocks` blocks of `bytes`: all whole ones, or none if the bytes came damaged.
// The memory is the caller's: it is handed over and given back. The count stands beside it since damaged bytes, whose
// capacity is 0, are given back too, and to tell them from sound ones takes a look at every byte.
#[derive(Drop)]
pub struct BlockStore {
    bytes: Vec<u8>,
    blocks: usize,
    ghost room: { blocks * 512 ≤ vec_len bytes },
    ghost whole: { intact (blocks_of blocks bytes.items) ≡ true },
    ghost apart: { distinct (blocks_of blocks bytes.items) ≡ true },
    ghost anew: { capacity_of bytes.items ≡ blocks },
}
