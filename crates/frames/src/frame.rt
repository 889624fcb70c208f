// Headers and frames as bytes.
ghost use Rattle.std.specs.Prelude.{◌≡◌, ℕ, ◌+◌, ◌<◌, cond, length};
ghost use Rattle.frames.specs.Frames.{header_bytes, header_of, frame_of, frame_at, parted, frame_fits, frame_end, frame_written};
ghost use Rattle.frames.specs.Laws.{FrameWhole, WrittenBack, PartedBack};

use crate::header::Header;
use octets::copy_at;

// A frame taken apart. The body is a part of the frame.
#[derive(Clone, Copy)]
pub struct Frame<'a> {
    pub header: Header,
    pub body: &'a [u8],
}

impl Header {
    // The ten bytes, by name: a From would not say that of the stream only its seven low bits are sent.
    pub fn bytes(self) -> [u8; 10]
        ensures value { result ≡ header_bytes self }
        ensures back { self.stream < 128 → header_of result ≡ self }
    {
        let [s0, s1] = self.session.to_be_bytes();
        let [t0, t1, t2, t3] = self.transaction.to_be_bytes();
        let wait = if self.wait { 128 } else { 0 };
        [
            s0,
            s1,
            wait + self.stream % 128,
            self.function,
            self.ptype,
            self.stype,
            t0,
            t1,
            t2,
            t3,
        ]
    }
}

// Takes header and body apart; none below ten bytes.
pub fn split_frame<'a>(frame: &'a [u8]) -> Option<Frame<'a>>
    ensures parts { parted result ≡ frame_at frame.now }
    ensures back { PartedBack frame.now result }
{
    let [
        s0,
        s1,
        stream,
        function,
        ptype,
        stype,
        t0,
        t1,
        t2,
        t3,
        body @ ..,
    ] = frame
    else {
        return None;
    };
    let header = Header {
        session: u16::from_be_bytes([*s0, *s1]),
        wait: *stream >= 128,
        stream: *stream % 128,
        function: *function,
        ptype: *ptype,
        stype: *stype,
        transaction: u32::from_be_bytes([*t0, *t1, *t2, *t3]),
    };
    Some(Frame { header, body })
}

// Writes a frame as it is sent at `at`: four bytes of length, header, body. Answers the place after it; where it does
// not fit, none, and no byte changes.
pub fn write_frame(out: &mut [u8], at: usize, header: Header, body: &[u8]) -> Option<usize>
    ensures place { result ≡ frame_end out.old at body.now }
    ensures after { out.new ≡ frame_written out.old at header body.now }
    ensures whole { FrameWhole }
    ensures back { WrittenBack out.new at header body.now result }
{
    let room = out.len().checked_sub(at)?.checked_sub(14)?;
    if body.len() > room {
        return None;
    }
    let length = u32::try_from(10 + body.len()).ok()?;
    copy_at(out, at, &length.to_be_bytes());
    copy_at(out, at + 4, &header.bytes());
    copy_at(out, at + 14, body);
    Some(at + 14 + body.len())
}
