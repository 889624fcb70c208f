// A store whose make is chosen while the program runs.
#![tactic(auto)]

pub mod choice;
