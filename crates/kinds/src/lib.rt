// Kinds of value: the format of their items, their order and their bits.
#![tactic(auto)]

pub mod kind;
pub mod number;
pub mod real;
