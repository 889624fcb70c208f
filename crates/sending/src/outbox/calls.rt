ghost use Rattle.std.specs.Prelude.{◌≡◌, ℕ, length, if◌then◌else◌, Some, None, nat_le};
ghost use Rattle.bodies.specs.Bodies.{body_of};
ghost use Rattle.sending.specs.Sending.{sent_by, frame_bytes, on_buffer};

use crate::outbox::{Message, Outbox};
use bodies::body::Body;
use bodies::write::{BODY_LIMIT, write_body};
use frames::frame::write_frame;
use frames::header::Header;
use octets::copy_at;

impl Outbox {
    pub fn new() -> Outbox
        ensures { sent_by result ≡ None }
    {
        Outbox { message: None }
    }

    // Sends a message with one of our bodies.
    pub fn post(&mut self, header: Header, body: Body)
        ensures { sent_by self.new ≡ Some (record { header = header; body = body_of body }) }
    {
        let mut bytes = [0; BODY_LIMIT];
        let length = write_body(body, &mut bytes).unwrap();
        self.message = Some(Message {
            header,
            length,
            body: bytes,
        });
    }

    // Sends a message with a body that is given; one above 480 bytes is not sent.
    pub fn post_bytes(&mut self, header: Header, body: &[u8])
        ensures { sent_by self.new ≡ (if nat_le (length body.now) 480 then Some (record { header = header; body = body.now }) else sent_by self.old) }
    {
        let mut bytes = [0; BODY_LIMIT];
        if copy_at(&mut bytes, 0, body) {
            self.message = Some(Message {
                header,
                length: body.len(),
                body: bytes,
            });
        }
    }

    // Writes the frame to the front of a buffer and tells its length; a buffer that is too short stays as it is.
    #[tactic(auto, using(crate::proofs::Fronts::frame_after))]
    pub fn write_to(&self, out: &mut [u8]) -> Option<usize>
        ensures answer { result ≡ (if nat_le (length (frame_bytes (sent_by self.now))) (length out.old) then Some (length (frame_bytes (sent_by self.now))) else None) }
        ensures after { out.new ≡ (if nat_le (length (frame_bytes (sent_by self.now))) (length out.old) then on_buffer (frame_bytes (sent_by self.now)) out.old else out.old) }
    {
        match &self.message {
            None => Some(0),
            Some(message) => {
                write_frame(out, 0, message.header, &message.body[..message.length])
            }
        }
    }
}
