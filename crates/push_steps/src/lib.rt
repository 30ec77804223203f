//! What each operation on pushes and transactions, and a restart, is to each repository.
#![tactic(auto)]

mod laws;

pub use laws::{
    a_restart_goes_on, begin_goes_on, booked_goes_on, close_goes_on, collect_goes_on, find_goes_on,
    finish_goes_on, health_goes_on, holder_goes_on, open_goes_on, outcome_goes_on,
    route_read_goes_on,
};
