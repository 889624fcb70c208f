// The bodies.
use frames::header::Header;

#[derive(Clone, Copy, PartialEq, Eq, Debug)]
pub enum Body {
    // no item
    Empty,
    // model name and software revision, of S1,F2 and S1,F13
    Identity,
    // COMMACK 0 and the identity, of S1,F14
    Accepted,
    // alarm report, S5,F1
    Alarm { alcd: u8, alarm: u32 },
    // event report, S6,F11
    Event { report: u32, event: u32 },
    // the header of the frame at fault, of stream 9
    Header(Header),
    // an acknowledge code, of S1,F16, S1,F18, S5,F4 and S6,F24
    Acknowledge(u8),
}
