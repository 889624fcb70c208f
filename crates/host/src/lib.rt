// What a frame of the host does to the equipment.
#![tactic(auto)]

pub mod acknowledge;
pub mod answers;
pub mod grants;
pub mod take;
pub mod waits;
