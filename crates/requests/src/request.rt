ghost use Rattle.std.specs.Prelude.{◌≡◌, Some};
ghost use Rattle.requests.specs.Faults.{fault_code, fault_function, fault_place, fault_text};

use std::error::Error;
use std::fmt;

// A primary of the host that is understood.
#[derive(Clone, Copy, PartialEq, Eq, Debug)]
pub enum Request {
    // S1,F1
    AreYouThere,
    // S1,F13
    Establish,
    // S1,F15
    GoOffline,
    // S1,F17
    GoOnline,
    // S5,F3
    EnableAlarm { enable: bool, alarm: u32 },
    // S6,F23 with 0
    Transmit,
    // S6,F23 with 1
    Purge,
}

// What is wrong with a frame of the host; code, place and function are in specs/Faults.antt.
#[derive(Clone, Copy, PartialEq, Eq, Debug)]
pub enum FrameFault {
    // The session number is not ours.
    Session,
    // The stream is unknown.
    Stream,
    // The function is unknown.
    Function,
    // The item at this place is at fault.
    BadItem { place: usize },
    // The item at this place is not the one listed, or nothing is listed there.
    Unlisted { place: usize },
}

// By name: three numbers belong to one fault.
impl FrameFault {
    // The code that a call answers.
    pub fn code(self) -> u8
        ensures { result ≡ fault_code self }
    {
        match self {
            FrameFault::Session => 20,
            FrameFault::Stream => 21,
            FrameFault::Function => 22,
            FrameFault::BadItem { .. } => 23,
            FrameFault::Unlisted { .. } => 24,
        }
    }

    // The place in the frame.
    pub fn place(self) -> usize
        ensures { result ≡ fault_place self }
    {
        match self {
            FrameFault::Session => 0,
            FrameFault::Stream => 2,
            FrameFault::Function => 3,
            FrameFault::BadItem { place } | FrameFault::Unlisted { place } => place,
        }
    }

    // The function of the stream-9 message that tells it.
    pub fn function(self) -> u8
        ensures { result ≡ fault_function self }
    {
        match self {
            FrameFault::Session => 1,
            FrameFault::Stream => 3,
            FrameFault::Function => 5,
            FrameFault::BadItem { .. } | FrameFault::Unlisted { .. } => 7,
        }
    }
}

impl fmt::Display for FrameFault {
    ghost output = { λ fault. Some (fault_text fault) };

    fn fmt<W: fmt::Write>(&self, f: &mut fmt::Formatter<W>) -> fmt::Result {
        match self {
            FrameFault::Session => write!(f, "the session is another's"),
            FrameFault::Stream => write!(f, "the stream is unknown"),
            FrameFault::Function => write!(f, "the function is unknown"),
            FrameFault::BadItem { place } => write!(f, "the item at {place} is at fault"),
            FrameFault::Unlisted { place } => {
                write!(f, "the item at {place} is not the one listed")
            }
        }
    }
}

impl Error for FrameFault {}
