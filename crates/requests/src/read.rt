// The host's primaries and its answer to ours, read item by item.
ghost use Rattle.std.specs.Prelude.{◌≡◌, IfOk, IfErr, OnOk};
ghost use Rattle.readers.specs.Values.{list_at, value_at};
ghost use Rattle.readers.specs.declared.mismatch.Mismatch.{Mismatch};
ghost use Rattle.requests.specs.Requests.{alarm_enable, commack_of, ending_at, fault_at, request_of, unload};

use crate::request::{FrameFault, Request};
use readers::mismatch::Mismatch;
use readers::value::{read_list, read_value};
use secs::scalar::{Binary, Scalar, U1, U4};

// The fault of a frame whose item at `place` is not the one listed.
fn fault_at(mismatch: Mismatch, place: usize) -> FrameFault
    ensures { result ≡ fault_at mismatch place }
{
    match mismatch {
        Mismatch::Faulty(_) => FrameFault::BadItem { place },
        Mismatch::Unexpected => FrameFault::Unlisted { place },
    }
}

// A frame and the place of its next item.
#[derive(Clone, Copy)]
struct Items<'a> {
    frame: &'a [u8],
    place: usize,
}

impl<'a> Items<'a> {
    // Those of a frame's body, which begins after the header.
    fn of(frame: &'a [u8]) -> Items<'a>
        ensures frame { result.frame ≡ frame.entry }
        ensures place { result.place ≡ 10 }
    {
        Items { frame, place: 10 }
    }

    // L of `count` items; its first is the next.
    fn list(&mut self, count: usize) -> Result<(), FrameFault>
        ensures frame { self.new.frame ≡ self.old.frame }
        ensures ok { OnOk result (list_at self.old.frame.now self.old.place count ≡ Ok self.new.place) }
        ensures err { IfErr result (λ fault. (m : Mismatch) × (list_at self.old.frame.now self.old.place count ≡ Err m) × (fault ≡ fault_at m self.old.place)) }
    {
        let place = self.place;
        self.place = read_list(self.frame, place, count).map_err(|m| fault_at(m, place))?;
        Ok(())
    }

    // The one number of the next item.
    fn value<S: Scalar>(&mut self) -> Result<S::Value, FrameFault>
        ensures frame { self.new.frame ≡ self.old.frame }
        ensures ok { IfOk result (λ x. value_at S.FORMAT S.Value.width S.Value.value_of self.old.frame.now self.old.place ≡ Ok (x, self.new.place)) }
        ensures err { IfErr result (λ fault. (m : Mismatch) × (value_at S.FORMAT S.Value.width S.Value.value_of self.old.frame.now self.old.place ≡ Err m) × (fault ≡ fault_at m self.old.place)) }
    {
        let place = self.place;
        let (value, next) = read_value::<S>(self.frame, place).map_err(|m| fault_at(m, place))?;
        self.place = next;
        Ok(value)
    }

    // A request of which the items read so far are all.
    fn ending(&self, request: Request) -> Result<Request, FrameFault>
        ensures { result ≡ ending_at self.now.frame.now self.now.place request }
    {
        if self.frame.len() <= self.place {
            Ok(request)
        } else {
            Err(FrameFault::Unlisted { place: self.place })
        }
    }
}

// The body of S5,F3.
#[tactic(auto, unfolding(crate::specs::Requests::alarm_enable))]
fn read_alarm_enable(frame: &[u8]) -> Result<Request, FrameFault>
    ensures { result ≡ alarm_enable frame.now }
{
    let mut items = Items::of(frame);
    items.list(2)?;
    let flags = items.value::<Binary>()?;
    let alarm = items.value::<U4>()?;
    items.ending(Request::EnableAlarm {
        enable: flags >= 128,
        alarm,
    })
}

// The body of S6,F23.
#[tactic(auto, unfolding(crate::specs::Requests::unload))]
fn read_unload(frame: &[u8]) -> Result<Request, FrameFault>
    ensures { result ≡ unload frame.now }
{
    let mut items = Items::of(frame);
    match items.value::<U1>()? {
        0 => items.ending(Request::Transmit),
        1 => items.ending(Request::Purge),
        _ => Err(FrameFault::Unlisted { place: 10 }),
    }
}

// The request that a primary of the host is, by its stream, its function and the items of its body.
#[tactic(auto, unfolding(crate::specs::Requests::request_of))]
pub fn read_request(frame: &[u8], stream: u8, function: u8) -> Result<Request, FrameFault>
    ensures { result ≡ request_of frame.now stream function }
{
    match (stream, function) {
        (1, 1) => Items::of(frame).ending(Request::AreYouThere),
        (1, 13) => Ok(Request::Establish),
        (1, 15) => Items::of(frame).ending(Request::GoOffline),
        (1, 17) => Items::of(frame).ending(Request::GoOnline),
        (5, 3) => read_alarm_enable(frame),
        (6, 23) => read_unload(frame),
        (1 | 2 | 5 | 6, _) => Err(FrameFault::Function),
        _ => Err(FrameFault::Stream),
    }
}

// COMMACK of an S1,F14; nothing where its first items are not L,2 and a B of one byte.
#[tactic(auto, unfolding(crate::specs::Requests::commack_of))]
pub fn read_commack(frame: &[u8]) -> Option<u8>
    ensures { result ≡ commack_of frame.now }
{
    let mut items = Items::of(frame);
    items.list(2).ok()?;
    items.value::<Binary>().ok()
}
