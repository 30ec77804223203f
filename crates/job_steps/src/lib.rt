//! The events of jobs: what the taking of one, its end, a beat, stale workers and a plan are to
//! each repository of the cluster.
#![tactic(auto)]

mod laws;

pub use laws::{
    a_beat_goes_on, a_dequeue_goes_on, a_plan_goes_on, an_end_goes_on, stale_workers_go_on,
};
