//! What a vote on a push, a withdrawal, a cancel and a stop are to each repository of the cluster.
#![tactic(auto)]

mod laws;

pub use laws::{a_cancel_goes_on, a_cast_goes_on, a_stop_goes_on, a_withdrawal_goes_on};
