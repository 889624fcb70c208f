// The frame that a call sends.
#![tactic(auto)]

pub mod outbox;
