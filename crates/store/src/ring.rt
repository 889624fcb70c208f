ghost use Rattle.std.specs.Prelude.{◌-◌, ◌≤◌, vec_len};

use crate::record::Record;

pub mod calls;

// A store over slots that are used in turn. The memory is the caller's: it is handed over whole and given back, which a
// VecDeque would not do, and a put cannot fail for memory. It is linear: who has one gives its slots back.
pub struct Ring {
    slots: Vec<Record>,
    first: usize,
    count: usize,
    ghost begins: { first ≤ vec_len slots - 1 },
    ghost within: { count ≤ vec_len slots },
}
