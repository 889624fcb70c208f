// Frames (SEMI E37): the header of ten bytes, and the body after it.
#![tactic(auto)]

pub mod frame;
pub mod header;
