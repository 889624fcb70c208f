// The lines of the ledger.
#![tactic(auto)]

pub mod journal;
pub mod line;
