ghost use Rattle.std.specs.Prelude.{◌≡◌, ◌<◌, ◌≤◌, [], ◌∷◌, length, None};
ghost use Rattle.store.specs.Answers.{Reads};
ghost use Rattle.store.specs.Reports.{body_limit};
ghost use Rattle.store.specs.Lent.{report_of};

use crate::answers::Copied;
use octets::copy_at;

// The most bytes that a report's body may have.
pub const BODY_LIMIT: usize = 480;

// A report, its body lent.
#[derive(Clone, Copy)]
pub struct Report<'a> {
    pub number: u32,
    pub stream: u8,
    pub function: u8,
    pub body: &'a [u8],
}

impl Report<'_> {
    // Copies the body to the front of `buffer` and tells the rest; nothing where the buffer is below the body limit, or the
    // body above it.
    pub fn copy_out(&self, buffer: &mut [u8]) -> Option<Copied>
        ensures short { length self.now.body.now ≤ body_limit → Reads (report_of self.now ∷ []) result buffer.old buffer.new }
        ensures long { body_limit < length self.now.body.now → (result ≡ None) × (buffer.new ≡ buffer.old) }
    {
        if self.body.len() > BODY_LIMIT || buffer.len() < BODY_LIMIT {
            return None;
        }
        copy_at(buffer, 0, self.body);
        Some(Copied {
            number: self.number,
            stream: self.stream,
            function: self.function,
            length: self.body.len(),
        })
    }
}
