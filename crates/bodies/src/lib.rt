// The bodies of the messages that the equipment sends (SEMI E5).
#![tactic(auto)]

pub mod body;
pub mod message;
pub mod write;
