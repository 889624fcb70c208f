// The reader and the writer of SECS-II items.
#![tactic(auto)]

pub mod read;
pub mod write;
