// SECS-II items (SEMI E5): formats, what an item is, and what can be wrong with one.
#![tactic(auto)]

pub mod elements;
pub mod format;
pub mod item;
pub mod scalar;
