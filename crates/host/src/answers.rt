ghost use Rattle.std.specs.Prelude.{◌≡◌};
ghost use Rattle.host.specs.Replies.{answers_primary, answers_report, answers_session, reply_taken, report_answered, request_answered};
ghost use Rattle.rules.specs.Views.{view};

use frames::header::Header;
use rules::state::{Core, Effects, Next, OpenSession, SessionRequest};
use spooling::state::OpenReport;
use states::control::Control;
use store::Store;

// Whether a frame answers the primary of ours with this stream, function and transaction.
pub fn answers_primary(header: Header, stream: u8, function: u8, transaction: u32) -> bool
    ensures { result ≡ answers_primary header stream function transaction }
{
    header.stream == stream
        && header.transaction == transaction
        && (u16::from(header.function) == u16::from(function) + 1 || header.function == 0)
}

// Whether a frame answers our open stream-1 transaction.
pub fn answers_session(header: Header, session: Option<OpenSession>) -> bool
    ensures { result ≡ answers_session header session }
{
    session.is_some_and(|sent| {
        answers_primary(header, 1, sent.request.function(), sent.transaction)
    })
}

// Whether a frame answers the open report.
pub fn answers_report(header: Header, pending: Option<OpenReport>) -> bool
    ensures { result ≡ answers_report header pending }
{
    pending.is_some_and(|sent| {
        answers_primary(header, sent.stream, sent.function, sent.transaction)
    })
}

// Our request, which closed, was answered with this function.
fn take_answer<Q: Store, S: Store>(
    core: &mut Core<Q, S>,
    next: Next,
    function: u8,
    request: SessionRequest,
    effects: &mut Effects,
)
    ensures { view Q.Store S.Store core.new effects.new ≡ request_answered next function request (view Q.Store S.Store core.old effects.old) }
{
    match (request, core.state.control) {
        (SessionRequest::AreYouThere, Control::Attempt) => {
            if function == 0 {
                core.fall_back();
            } else {
                core.go_online(next, effects);
            }
        }
        _ => {}
    }
}

// The open report was answered with this function.
fn take_acknowledge<Q: Store, S: Store>(core: &mut Core<Q, S>, function: u8, effects: &mut Effects)
    ensures { view Q.Store S.Store core.new effects.new ≡ report_answered function (view Q.Store S.Store core.old effects.old) }
{
    if function == 0 {
        core.reports.pending = None;
    } else {
        core.reports.acknowledge(&mut effects.journal);
    }
}

// A frame of an even function: it answers a transaction of ours, or is ignored.
#[tactic(auto, unfolding(crate::specs::Replies::reply_taken))]
pub fn take_reply<Q: Store, S: Store>(
    core: &mut Core<Q, S>,
    next: Next,
    header: Header,
    effects: &mut Effects,
)
    ensures { view Q.Store S.Store core.new effects.new ≡ reply_taken next header (view Q.Store S.Store core.old effects.old) }
{
    if answers_session(header, core.state.session) {
        if let Some(sent) = core.state.session.take() {
            take_answer(core, next, header.function, sent.request, effects);
        }
    } else if answers_report(header, core.reports.pending) {
        take_acknowledge(core, header.function, effects);
    }
}
