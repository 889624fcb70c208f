// A whole message: a frame with one of the bodies.
ghost use Rattle.std.specs.Prelude.{◌≡◌};
ghost use Rattle.frames.specs.Frames.{frame_end, frame_written};
ghost use Rattle.bodies.specs.Bodies.{body_of};

use crate::body::Body;
use crate::write::{BODY_LIMIT, write_body};
use frames::frame::write_frame;
use frames::header::Header;

// Writes the frame of a message at `at` and answers the place after it. Where it does not fit, nothing changes.
pub fn write_message(out: &mut [u8], at: usize, header: Header, body: Body) -> Option<usize>
    ensures place { result ≡ frame_end out.old at (body_of body) }
    ensures after { out.new ≡ frame_written out.old at header (body_of body) }
{
    let mut bytes = [0; BODY_LIMIT];
    let length = write_body(body, &mut bytes)?;
    write_frame(out, at, header, &bytes[..length])
}
