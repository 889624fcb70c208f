// Work above any store: steps one after another, and a report that is put and read back.
#![tactic(auto)]

pub mod steps;
