//! Votes of a panel on hashes: who may vote, what each vote and cancel comes to, and the proof of
//! a quorum.
#![tactic(auto)]

mod act;
mod count;
mod laws;
mod mark;
mod outcome;
mod panel;
mod sub;
mod tally;
mod verdict;
mod voter_result;

pub use act::Act;
pub use laws::{
    calls_come_to_their_acts, committed_hash_has_its_weight, each_voter_casts_once,
    marks_are_those_of_the_acts, no_two_hashes_reach_the_threshold_at_once, open_weights_agree,
    outcome_is_that_of_the_marks, outcome_is_that_of_the_rule, outcome_never_changes,
    panels_give_polls, results_are_those_of_the_rule, standing_weights_agree,
    vote_stands_where_it_was_cast, voter_is_open_until_it_acts,
};
pub use mark::Mark;
pub use outcome::Outcome;
pub use panel::{Panel, PanelRefusal};
pub use px_base::Voter;
pub use sub::{CancelRefusal, CastRefusal, StopRefusal, Sub};
pub use verdict::Verdict;
pub use voter_result::VoterResult;
