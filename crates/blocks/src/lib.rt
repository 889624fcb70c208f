// A store of reports in blocks of 512 bytes, for bytes that outlive the program.
#![tactic(auto)]

mod block;
pub mod block_store;
pub mod laws;
mod scan;
