ghost use Rattle.std.specs.Prelude.{◌≤◌};
ghost use Rattle.store.specs.Reports.{body_limit};

use crate::report::BODY_LIMIT;

pub mod calls;

// The memory of one report: its body is the first `length` bytes of `body`.
// The length stands beside the bytes since a slot is fixed memory and promises zeros after its body.
#[derive(Clone, Copy)]
pub struct Record {
    number: u32,
    stream: u8,
    function: u8,
    length: usize,
    body: [u8; BODY_LIMIT],
    ghost fits: { length ≤ body_limit },
}
