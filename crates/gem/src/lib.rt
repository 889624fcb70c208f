// The equipment and its calls.
#![tactic(auto)]

pub mod act;
pub mod calls;
pub mod equipment;
pub mod fault;
pub mod start;
pub mod status;
