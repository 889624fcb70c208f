// What the host asks for: its primaries, read item by item.
#![tactic(auto)]

pub mod read;
pub mod request;
