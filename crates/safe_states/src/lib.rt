//! Every state of a repository that events lead to is safe.
#![tactic(auto)]

mod laws;

pub use laws::{
    a_booking_never_falls, a_job_is_for_a_decided_generation, a_member_takes_the_lease_of_its_push,
    a_routed_read_is_answered, each_event_keeps_the_invariant, every_state_has_the_invariant,
    every_state_is_safe, late_voters_are_at_the_generation_before, members_are_at_newest,
    nothing_falls, some_are_settled_and_accepted, some_push_ends, the_invariant_is_safe,
    who_confirms_is_in_doubt,
};
