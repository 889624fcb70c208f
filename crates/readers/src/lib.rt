// Readers of the values that the items of a host message hold.
#![tactic(auto)]

pub mod mismatch;
pub mod value;
