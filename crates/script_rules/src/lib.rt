//! What the events of a script do to the cluster, what is printed of it, and what is true of every
//! script.
#![tactic(auto)]

mod answer;
mod laws;
mod text;

pub use answer::Answer;
pub use laws::{
    a_closed_number_is_not_given_again, a_commit_is_named_by_a_quorum,
    a_current_replica_holds_its_generation, a_push_that_a_quorum_votes_for_ends_committed,
    a_routed_read_is_answered, a_script_has_one_run,
    an_outcome_stays_until_the_transaction_is_closed, every_state_of_a_script_is_safe,
    lines_ask_one_list_of_events, newest_never_falls, standing_votes_name_each_committed_hash,
    what_is_booked_never_falls,
};
pub use text::add_line;
