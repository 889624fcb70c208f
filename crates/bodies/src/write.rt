// The writers of the bodies.
ghost use Rattle.std.specs.Prelude.{◌≡◌, ℕ, ◌+◌, ◌≤◌, cond, ◌++◌, length, take, drop, IfSome, Some};
ghost use Rattle.octets.specs.Places.{placed};
ghost use Rattle.items.specs.Encode.{item_end, item_written};
ghost use Rattle.frames.specs.Frames.{header_bytes};
ghost use Rattle.bodies.specs.Items.{bytes_of};
ghost use Rattle.bodies.specs.Bodies.{identity, accepted, alarm_report, event_report, body_of, body_end, body_written, EveryBodyFits};

use crate::body::Body;
use arrayvec::ArrayVec;
use frames::header::Header;
use items::write::{write_item, write_list};
use secs::format::Format;
use secs::scalar::{Binary, U4};
use values::writers::{write_ascii, write_value};

// The greatest length of a body of ours. A store's limit is a promise of its own, with a name of its own.
pub const BODY_LIMIT: usize = 480;

// The place goes from line to line: over the lent buffer a cursor with the same `?` would make no line shorter.
fn write_identity(out: &mut [u8], at: usize) -> Option<usize>
    requires { at + 18 ≤ length out.old }
    ensures place { result ≡ Some (at + 18) }
    ensures after { out.new ≡ placed out.old at (bytes_of identity) }
{
    let at = write_list(out, at, 2)?;
    let at = write_ascii(out, at, b"BENCH1")?;
    write_ascii(out, at, b"000001")
}

fn write_accepted(out: &mut [u8]) -> Option<usize>
    requires { 23 ≤ length out.old }
    ensures place { result ≡ Some 23 }
    ensures after { out.new ≡ placed out.old 0 (bytes_of accepted) }
{
    let at = write_list(out, 0, 2)?;
    let at = write_value::<Binary>(out, at, 0)?;
    write_identity(out, at)
}

fn write_alarm(out: &mut [u8], alcd: u8, alarm: u32) -> Option<usize>
    requires { 13 ≤ length out.old }
    ensures place { result ≡ Some 13 }
    ensures after { out.new ≡ placed out.old 0 (bytes_of (alarm_report alcd alarm)) }
{
    let at = write_list(out, 0, 3)?;
    let at = write_value::<Binary>(out, at, alcd)?;
    let at = write_value::<U4>(out, at, alarm)?;
    write_ascii(out, at, &[])
}

fn write_event(out: &mut [u8], report: u32, event: u32) -> Option<usize>
    requires { 16 ≤ length out.old }
    ensures place { result ≡ Some 16 }
    ensures after { out.new ≡ placed out.old 0 (bytes_of (event_report report event)) }
{
    let at = write_list(out, 0, 3)?;
    let at = write_value::<U4>(out, at, report)?;
    let at = write_value::<U4>(out, at, event)?;
    write_list(out, at, 0)
}

fn write_header(out: &mut [u8], header: Header) -> Option<usize>
    ensures place { result ≡ item_end out.old 0 Format.Binary (header_bytes header) }
    ensures after { out.new ≡ item_written out.old 0 Format.Binary (header_bytes header) }
{
    write_item(out, 0, Format::Binary, &header.bytes())
}

// The items of a body at the front of `out`, which has room for them.
#[tactic(auto, unfolding(crate::specs::Bodies::body_of))]
fn write_items(body: Body, out: &mut [u8]) -> Option<usize>
    requires { length (body_of body) ≤ length out.old }
    ensures place { result ≡ Some (length (body_of body)) }
    ensures after { out.new ≡ body_of body ++ drop (length (body_of body)) out.old }
{
    match body {
        Body::Empty => Some(0),
        Body::Identity => write_identity(out, 0),
        Body::Accepted => write_accepted(out),
        Body::Alarm { alcd, alarm } => write_alarm(out, alcd, alarm),
        Body::Event { report, event } => write_event(out, report, event),
        Body::Header(header) => write_header(out, header),
        Body::Acknowledge(code) => write_value::<Binary>(out, 0, code),
    }
}

impl Body {
    // How many bytes the body has, which never exceeds the limit.
    #[tactic(auto, using(crate::proofs::Limits::every_body_fits), unfolding(crate::specs::Bodies::body_of))]
    pub fn length(self) -> usize
        ensures value { result ≡ length (body_of self) }
        ensures fits { EveryBodyFits }
    {
        match self {
            Body::Empty => 0,
            Body::Identity => 18,
            Body::Accepted => 23,
            Body::Alarm { .. } => 13,
            Body::Event { .. } => 16,
            Body::Header(_) => 12,
            Body::Acknowledge(_) => 3,
        }
    }

    // The bytes of the body's items.
    #[tactic(auto, using(crate::proofs::Limits::every_body_fits))]
    pub fn bytes(self) -> ArrayVec<u8, BODY_LIMIT>
        ensures items { result.items ≡ body_of self }
        ensures fits { EveryBodyFits }
    {
        let mut bytes = ArrayVec::from([0; BODY_LIMIT]);
        let length = write_body(self, &mut bytes).unwrap();
        bytes.truncate(length);
        bytes
    }
}

// Writes a body at the front of `out` and answers its length. Where `out` is too short, nothing changes. Who sends or keeps the
// bytes at once has a buffer of the limit beside the call: one that came back from a function would be moved once more.
#[tactic(auto, using(crate::proofs::Limits::every_body_fits))]
pub fn write_body(body: Body, out: &mut [u8]) -> Option<usize>
    ensures place { result ≡ body_end out.old (body_of body) }
    ensures after { out.new ≡ body_written out.old (body_of body) }
    ensures front { IfSome result (λ n. take n out.new ≡ body_of body) }
    ensures surely { 480 ≤ length out.old → result ≡ Some (length (body_of body)) }
{
    if out.len() < body.length() {
        return None;
    }
    write_items(body, out)
}
