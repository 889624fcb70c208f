ghost use Rattle.std.specs.Prelude.{◌≡◌};
ghost use Rattle.host.specs.Replies.{commack_taken, is_awaited_commack, is_establish, wait_taken};
ghost use Rattle.requests.specs.Requests.{commack_of};
ghost use Rattle.rules.specs.Views.{view};

use crate::answers::answers_session;
use bodies::body::Body;
use frames::header::Header;
use requests::read::read_commack;
use rules::state::{Core, Effects, Next};
use states::link::{Link, LinkEvent};
use store::Store;

// The host answered our S1,F13: COMMACK 0 accepts, another denies, a malformed answer is discarded.
fn take_commack<Q: Store, S: Store>(
    core: &mut Core<Q, S>,
    next: Next,
    commack: Option<u8>,
    effects: &mut Effects,
)
    ensures { view Q.Store S.Store core.new effects.new ≡ commack_taken next commack (view Q.Store S.Store core.old effects.old) }
{
    match commack {
        None => {}
        Some(0) => {
            core.state.session = None;
            core.move_link(next, LinkEvent::Accepted, effects);
        }
        Some(_) => core.move_link(next, LinkEvent::Denied, effects),
    }
}

// A frame in WAIT CRA or WAIT DELAY.
#[tactic(auto, unfolding(crate::specs::Replies::wait_taken))]
pub fn take_in_wait<Q: Store, S: Store>(
    core: &mut Core<Q, S>,
    next: Next,
    header: Header,
    frame: &[u8],
    effects: &mut Effects,
)
    ensures { view Q.Store S.Store core.new effects.new ≡ wait_taken next header frame.now (view Q.Store S.Store core.old effects.old) }
{
    if header.stream == 1 && header.function == 13 {
        core.move_link(next, LinkEvent::HostEstablishes, effects);
        core.reply(header, 14, Body::Accepted, effects);
        return;
    }
    let waits = core.state.link == Link::WaitCra;
    if waits && header.function == 14 && answers_session(header, core.state.session) {
        take_commack(core, next, read_commack(frame), effects);
    } else {
        core.move_link(next, LinkEvent::OtherFrame, effects);
    }
}
