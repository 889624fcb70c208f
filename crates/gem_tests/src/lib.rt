// Example runs of the equipment through its public calls.
#![tactic(auto)]

#[cfg(test)]
mod alarms;
#[cfg(test)]
mod control;
#[cfg(test)]
mod driver;
#[cfg(test)]
mod host_frames;
#[cfg(test)]
mod link;
#[cfg(test)]
mod refusals;
#[cfg(test)]
mod reports;
#[cfg(test)]
mod spool;
#[cfg(test)]
mod start;
