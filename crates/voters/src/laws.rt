//! What is true of every list of acts, and of every list of calls whether they are refused or not.
//! A law is a function with nothing in it: what it ensures is proved for all values.

ghost use Rattle.std.specs.Prelude.{◌≡◌, ◌≢◌, ℕ, ◌≤◌, true, List, ◌↔◌, Contains};
ghost use Rattle.px_base.specs.declared.hash.Hash.{Hash};
ghost use Rattle.voters.specs.Calls.{Call, acts_of, all_called};
ghost use Rattle.voters.specs.MarkRule.{IsMarksOutcome, marks_of};
ghost use Rattle.voters.specs.Marks.{open_weight, standing_weight};
ghost use Rattle.voters.specs.Panel.{IsPanel, Roster, poll_of};
ghost use Rattle.voters.specs.Results.{result_at};
ghost use Rattle.voters.specs.Rule.{CastsOnce, Commits, IsOutcome, IsPoll, is_open, rule_result_at, stands, weight_open, weight_standing};
ghost use Rattle.voters.specs.Votes.{Poll, Votes, run, start};
ghost use Rattle.voters.specs.declared.act.Act.{Act};

use crate::outcome::Outcome;

/// A vote stands where the acts contain its cast, and no cancel of its voter.
pub fn vote_stands_where_it_was_cast()
    ensures { (acts : List Act) (voter : ℕ) (hash : Hash) → ((stands acts voter hash ≡ true)
        ↔ (Contains acts (Act.Cast voter hash) × ¬ (Contains acts (Act.Cancel voter)))) }
{}

/// A voter is open where the acts contain neither a cast by it nor a cancel of it.
pub fn voter_is_open_until_it_acts()
    ensures { (acts : List Act) (voter : ℕ) → ((is_open acts voter ≡ true)
        ↔ (((hash : Hash) → ¬ (Contains acts (Act.Cast voter hash)))
        × ¬ (Contains acts (Act.Cancel voter)))) }
{}

/// What is said of a poll holds of the votes of every panel.
pub fn panels_give_polls()
    ensures { (panel : Roster) → IsPanel panel.voters panel.threshold → IsPoll (poll_of panel) }
{}

/// The marks after a list of acts are what the list says of each voter.
pub fn marks_are_those_of_the_acts()
    ensures { (poll : Poll) (acts : List Act) → (run acts (start poll)).marks ≡ marks_of poll acts }
{}

/// By the marks, the outcome after a list of acts is that of its shortest deciding prefix.
pub fn outcome_is_that_of_the_marks()
    ensures { (poll : Poll) (acts : List Act) (outcome : Outcome) → IsPoll poll
        → (((run acts (start poll)).outcome ≡ outcome) ↔ IsMarksOutcome poll acts outcome) }
{}

/// A list of calls, refused or not, comes to the acts of those that are accepted.
pub fn calls_come_to_their_acts()
    ensures { (votes : Votes) (calls : List Call)
        → all_called calls votes ≡ run (acts_of votes calls) votes }
{}

/// In the acts of any list of calls no voter casts twice.
pub fn each_voter_casts_once()
    ensures { (poll : Poll) (calls : List Call) → CastsOnce (acts_of (start poll) calls) }
{}

/// Where no voter casts twice, the marks have the weight that the rule says for each hash.
pub fn standing_weights_agree()
    ensures { (poll : Poll) (acts : List Act) (hash : Hash) → CastsOnce acts
        → standing_weight hash (marks_of poll acts) ≡ weight_standing poll acts hash }
{}

/// The marks have the open weight that the rule says.
pub fn open_weights_agree()
    ensures { (poll : Poll) (acts : List Act)
        → open_weight (marks_of poll acts) ≡ weight_open poll acts }
{}

/// The outcome after any list of calls is that of the shortest deciding prefix of their acts.
pub fn outcome_is_that_of_the_rule()
    ensures { (poll : Poll) (calls : List Call) (outcome : Outcome) → IsPoll poll
        → (((all_called calls (start poll)).outcome ≡ outcome)
        ↔ IsOutcome poll (acts_of (start poll) calls) outcome) }
{}

/// The result of each voter after any list of calls is the one of the rule for their acts.
pub fn results_are_those_of_the_rule()
    ensures { (poll : Poll) (calls : List Call) (outcome : Outcome) (voter : ℕ) → IsPoll poll
        → IsOutcome poll (acts_of (start poll) calls) outcome
        → result_at (all_called calls (start poll)) voter
        ≡ rule_result_at poll (acts_of (start poll) calls) outcome voter }
{}

/// An outcome that is not open is the same after every longer list of acts.
pub fn outcome_never_changes()
    ensures { (votes : Votes) (acts : List Act) → votes.outcome ≢ Outcome.Open
        → (run acts votes).outcome ≡ votes.outcome }
{}

/// Whatever calls are made, what stands for a committed hash weighs at least the threshold.
pub fn committed_hash_has_its_weight()
    ensures { (poll : Poll) (calls : List Call) (hash : Hash) → IsPoll poll
        → (all_called calls (start poll)).outcome ≡ Outcome.Commit hash
        → poll.threshold ≤ standing_weight hash (all_called calls (start poll)).marks }
{}

/// Standing votes of threshold weight name one hash at most at a time: after any list of acts in
/// which no voter casts twice, and so after any list of calls.
pub fn no_two_hashes_reach_the_threshold_at_once()
    ensures acts { (poll : Poll) (acts : List Act) (one other : Hash) → IsPoll poll
        → CastsOnce acts → Commits poll acts one → Commits poll acts other → one ≡ other }
    ensures calls { (poll : Poll) (calls : List Call) (one other : Hash) → IsPoll poll
        → poll.threshold ≤ standing_weight one (all_called calls (start poll)).marks
        → poll.threshold ≤ standing_weight other (all_called calls (start poll)).marks
        → one ≡ other }
{}
