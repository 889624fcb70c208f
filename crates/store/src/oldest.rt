ghost use Rattle.std.specs.Prelude.{◌≡◌, ◌≤◌, length, IfSome};
ghost use Rattle.store.specs.Lent.{lent, oldest_of};
ghost use Rattle.store.specs.Reports.{body_limit};

use crate::Store;
use crate::report::{BODY_LIMIT, Report};

// The oldest report of a store, which keeps it. Its body is read into the buffer, which is lent on with it, so that no
// clause can name what the buffer holds besides.
pub fn read_oldest<'a, S: Store>(store: &S, buffer: &'a mut [u8; BODY_LIMIT]) -> Option<Report<'a>>
    ensures report { lent result ≡ oldest_of (S.Store.records store.now) }
    ensures fits { IfSome result (λ r. length r.body.now ≤ body_limit) }
{
    let copied = store.read(buffer)?;
    Some(Report {
        number: copied.number,
        stream: copied.stream,
        function: copied.function,
        body: &buffer[..copied.length],
    })
}
