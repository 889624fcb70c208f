// Frames as text for people, in the manner of SML: `S6F11 W <L [3] <U4 1> <U4 3> <L [0]>>`.
#![tactic(auto)]

mod body;
mod pieces;
pub mod render;
