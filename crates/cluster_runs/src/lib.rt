//! Every list of events of the whole cluster leads to states that are safe.
#![tactic(auto)]

mod laws;

pub use laws::{
    a_booking_never_falls, a_current_replica_holds_its_generation, a_replica_goes_by_a_delete,
    a_routed_read_is_answered, current_replicas_hold_the_same,
    each_move_is_events_of_each_repository, every_run_is_safe, newest_never_falls,
    the_book_is_ready_for_votes,
};
