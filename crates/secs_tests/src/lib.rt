// Examples of items, frames and bodies.
#![tactic(auto)]

#[cfg(test)]
mod frames_and_bodies;
#[cfg(test)]
mod items_read;
#[cfg(test)]
mod items_written;
