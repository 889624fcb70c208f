// Example runs of bands, samples and values.
#![tactic(auto)]

#[cfg(test)]
mod bands;
#[cfg(test)]
mod refusals;
#[cfg(test)]
mod standard;
#[cfg(test)]
mod values;
