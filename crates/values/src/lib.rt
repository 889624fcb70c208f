// Writers of the values that the items of the equipment hold: one element each, and text.
#![tactic(auto)]

pub mod writers;
