// Reports on their way: the queue, the spool, and what becomes of each report. Every rule is written once, for any two stores.
#![tactic(auto)]

pub mod enter;
pub mod leave;
mod oldest;
pub mod state;
