// The zones of a variable's bands, which samples move.
#![tactic(auto)]

pub mod band;
pub mod places;
pub mod rule;
pub mod run;
pub mod variable;
