ghost use Rattle.std.specs.Prelude.{◌≡◌};
ghost use Rattle.host.specs.Takes.{TakenAs, frame_taken, link_taken, primary_taken, taken_answer};
ghost use Rattle.rules.specs.Views.{view};

use crate::answers::take_reply;
use crate::grants::grant;
use crate::waits::take_in_wait;
use bodies::body::Body;
use frames::header::Header;
use requests::read::read_request;
use requests::request::FrameFault;
use rules::state::{Core, Effects, Next};
use states::link::Link;
use store::Store;

// A primary while communicating; one at fault changes nothing. The header is the frame's own, taken apart once.
#[tactic(auto, unfolding(crate::specs::Takes::primary_taken))]
fn take_primary<Q: Store, S: Store>(
    core: &mut Core<Q, S>,
    next: Next,
    header: Header,
    frame: &[u8],
    effects: &mut Effects,
) -> Result<(), FrameFault>
    ensures { TakenAs (primary_taken next header frame.now (view Q.Store S.Store core.old effects.old)) next header (view Q.Store S.Store core.old effects.old) result (view Q.Store S.Store core.new effects.new) }
{
    let taken = header.stream == 1 && (header.function == 13 || header.function == 17);
    if !core.state.control.is_online() && !taken {
        core.reply(header, 0, Body::Empty, effects);
        return Ok(());
    }
    let request = read_request(frame, header.stream, header.function)?;
    grant(core, next, header, request, effects);
    Ok(())
}

// A frame, by the state of communications; one at fault changes nothing.
fn take_by_link<Q: Store, S: Store>(
    core: &mut Core<Q, S>,
    next: Next,
    header: Header,
    frame: &[u8],
    effects: &mut Effects,
) -> Result<(), FrameFault>
    ensures { TakenAs (link_taken next header frame.now core.old.state.link (view Q.Store S.Store core.old effects.old)) next header (view Q.Store S.Store core.old effects.old) result (view Q.Store S.Store core.new effects.new) }
{
    let link = core.state.link;
    if link == Link::Disabled {
        return Ok(());
    }
    if header.session != core.state.settings.session {
        return Err(FrameFault::Session);
    }
    if matches!(link, Link::WaitCra | Link::WaitDelay) {
        take_in_wait(core, next, header, frame, effects);
        return Ok(());
    }
    if header.function % 2 == 0 {
        take_reply(core, next, header, effects);
        return Ok(());
    }
    take_primary(core, next, header, frame, effects)
}

// Takes a frame of the host, or tells the host that it is at fault.
#[tactic(auto, unfolding(crate::specs::Takes::frame_taken))]
pub fn take_frame<Q: Store, S: Store>(
    core: &mut Core<Q, S>,
    next: Next,
    header: Header,
    frame: &[u8],
    effects: &mut Effects,
) -> Result<(), FrameFault>
    ensures answer { taken_answer result ≡ ((frame_taken next header frame.now (view Q.Store S.Store core.old effects.old)).code, (frame_taken next header frame.now (view Q.Store S.Store core.old effects.old)).detail) }
    ensures after { view Q.Store S.Store core.new effects.new ≡ (frame_taken next header frame.now (view Q.Store S.Store core.old effects.old)).after }
{
    let taken = take_by_link(core, next, header, frame, effects);
    if let Err(fault) = taken {
        core.tell_fault(next, fault.function(), header, effects);
    }
    taken
}
