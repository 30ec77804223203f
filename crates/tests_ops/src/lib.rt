//! Tests of the texts of refusals and replies.
#![tactic(auto)]

#[cfg(test)]
mod refusals;
#[cfg(test)]
mod replies;
