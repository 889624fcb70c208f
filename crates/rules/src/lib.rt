// The rules of the equipment on communications, control and reports, for any two stores.
#![tactic(auto)]

pub mod control;
pub mod event;
pub mod link;
pub mod report;
pub mod send;
pub mod state;
