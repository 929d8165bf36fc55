//! Examples that are executed: files good and damaged, places spoilt, groups, clear runs and deals.

#![tactic(auto)]

#[cfg(test)]
mod bytes;
#[cfg(test)]
mod damaged;
#[cfg(test)]
mod deals;
#[cfg(test)]
mod groups_named;
#[cfg(test)]
mod looks;
#[cfg(test)]
mod random;
#[cfg(test)]
mod refusals_named;
#[cfg(test)]
mod runs;
#[cfg(test)]
mod spoilt;
