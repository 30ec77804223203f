//! Tests of votes, and of what every crate stands on.
#![tactic(auto)]

#[cfg(test)]
mod names;
#[cfg(test)]
mod standard;
#[cfg(test)]
mod streams;
#[cfg(test)]
mod transactions;
#[cfg(test)]
mod votes;
