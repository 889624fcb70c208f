ghost use Rattle.std.specs.Prelude.{◌≤◌};

use bodies::write::BODY_LIMIT;
use frames::header::Header;

pub mod calls;

// A message that waits for its frame: the first `length` bytes of `body` are its body. A call never allocates. An array with a
// length: an ArrayVec could not be copied.
#[derive(Clone, Copy)]
pub struct Message {
    header: Header,
    length: usize,
    body: [u8; BODY_LIMIT],
    ghost fits: { length ≤ 480 },
}

// The message that a call sends, if it sends one; no call sends two.
#[derive(Clone, Copy)]
pub struct Outbox {
    message: Option<Message>,
}
