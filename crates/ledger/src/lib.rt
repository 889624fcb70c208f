// The ledger of a run, and the law that it is true.
#![tactic(auto)]

pub mod sitting;
