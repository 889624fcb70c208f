// The states of the equipment: communications and control (SEMI E30).
#![tactic(auto)]

pub mod control;
pub mod link;
