ghost use Rattle.std.specs.Prelude.{◌≤◌};

use crate::line::Line;

pub mod calls;

// The lines of one call, before they go to the ledger that the call was lent. A call never allocates. An array with a count:
// an ArrayVec could not be copied.
#[derive(Clone, Copy)]
pub struct Journal {
    lines: [Line; 32],
    used: usize,
    ghost within: { used ≤ 32 },
}
