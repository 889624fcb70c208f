// Example runs of the block store.
#![tactic(auto)]

#[cfg(test)]
mod damage;
#[cfg(test)]
mod edges;
#[cfg(test)]
mod order;
#[cfg(test)]
mod sample;
