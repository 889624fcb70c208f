// What the equipment does by itself: pumping reports out, samples of its variables, and the return of power.
#![tactic(auto)]

pub mod power;
pub mod pump;
pub mod sample;
