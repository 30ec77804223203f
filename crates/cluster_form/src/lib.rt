//! What every cluster that a run reaches looks like: the form of its book, its jobs, its turns and its
//! ledger, kept by each event.
#![tactic(auto)]

mod laws;

pub use laws::{
    a_generation_is_left_for_each_open_push, a_replica_has_one_job_at_most,
    a_repository_has_a_replica_on_each_storage, an_open_push_is_a_vote_of_its_members,
    each_move_keeps_the_form, each_operation_keeps_the_core, effects_go_where_they_were_issued,
    effects_have_leases_that_were_drawn, no_number_is_ahead_of_what_was_given,
    storage_names_are_given_once,
};
