//! What becomes of transactions, of their outcomes and of the commits that they decide, over every list
//! of moves of the cluster.
#![tactic(auto)]

mod laws;

pub use laws::{
    a_commit_is_issued_by_a_collect, a_fixed_outcome_stays,
    a_push_that_a_quorum_votes_for_ends_committed, a_quorum_names_what_is_issued,
    a_transaction_goes_on_by_acts, an_open_push_commits_what_it_decided,
};
