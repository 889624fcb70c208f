ghost use Rattle.std.specs.Prelude.{◌≡◌};
ghost use Rattle.rules.specs.Sends.{asked, faulted, our_header, replied, request_body, request_function};
ghost use Rattle.rules.specs.Views.{view};

use crate::state::{Core, Effects, Next, OpenSession, SessionRequest};
use bodies::body::Body;
use frames::header::Header;
use setup::settings::Settings;
use store::Store;

// The header of a frame of ours. Its parts are named at each call: a struct of them would be the header.
pub fn our_header(
    settings: &Settings,
    wait: bool,
    stream: u8,
    function: u8,
    transaction: u32,
) -> Header
    ensures { result ≡ our_header settings.now wait stream function transaction }
{
    Header {
        session: settings.session,
        wait,
        stream,
        function,
        ptype: 0,
        stype: 0,
        transaction,
    }
}

// By name: function and body are two parts of one message.
impl SessionRequest {
    pub fn function(self) -> u8
        ensures { result ≡ request_function self }
    {
        match self {
            SessionRequest::AreYouThere => 1,
            SessionRequest::Establish => 13,
        }
    }

    pub fn body(self) -> Body
        ensures { result ≡ request_body self }
    {
        match self {
            SessionRequest::AreYouThere => Body::Empty,
            SessionRequest::Establish => Body::Identity,
        }
    }
}

impl<Q: Store, S: Store> Core<Q, S> {
    // Sends a request of ours on stream 1; it opens a transaction and closes an older one.
    #[tactic(auto, unfolding(crate::specs::Sends::asked))]
    pub fn ask(&mut self, next: Next, request: SessionRequest, effects: &mut Effects)
        ensures { view Q.Store S.Store self.new effects.new ≡ asked next request (view Q.Store S.Store self.old effects.old) }
    {
        let header = our_header(
            &self.state.settings,
            true,
            1,
            request.function(),
            next.transaction,
        );
        effects.outbox.post(header, request.body());
        self.state.counts.transactions = next.transaction;
        self.state.session = Some(OpenSession {
            transaction: next.transaction,
            request,
        });
    }

    // Sends a stream-9 message about the frame with this header.
    #[tactic(auto, unfolding(crate::specs::Sends::faulted))]
    pub fn tell_fault(&mut self, next: Next, function: u8, header: Header, effects: &mut Effects)
        ensures { view Q.Store S.Store self.new effects.new ≡ faulted next function header (view Q.Store S.Store self.old effects.old) }
    {
        let ours = our_header(&self.state.settings, false, 9, function, next.transaction);
        effects.outbox.post(ours, Body::Header(header));
        self.state.counts.transactions = next.transaction;
    }

    // Replies to the primary with this header, where it asks for a reply.
    #[tactic(auto, unfolding(crate::specs::Sends::replied))]
    pub fn reply(&self, header: Header, function: u8, body: Body, effects: &mut Effects)
        ensures { view Q.Store S.Store self.now effects.new ≡ replied header function body (view Q.Store S.Store self.now effects.old) }
    {
        if header.wait {
            let ours = our_header(
                &self.state.settings,
                false,
                header.stream,
                function,
                header.transaction,
            );
            effects.outbox.post(ours, body);
        }
    }
}
