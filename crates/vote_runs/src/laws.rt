//! Each law is a function with nothing in it: what it ensures is proved for all values.

ghost use Rattle.vote_runs.specs.Acts.{TransactionsAreOfPolls, TransactionsGoOnByActs};
ghost use Rattle.vote_runs.specs.Commits.{CommitsAreIssuedByCollects, IssuedCommitsAreNamed, OpenPushesCommitWhatTheyDecided};
ghost use Rattle.vote_runs.specs.Complete.{PushesBeginUntouched, PushesThatAQuorumVotesForEndCommitted, PushesThatAllVoteForEndCommitted};
ghost use Rattle.vote_runs.specs.Outcomes.{OutcomesStay};

/// Each transaction on record is what some acts made of its opening by a poll whose threshold is above
/// half of its weight; and no move takes anything of that back, gives it other voters, or brings a
/// transaction back that is no more on record.
pub fn a_transaction_goes_on_by_acts()
    ensures polls { TransactionsAreOfPolls }
    ensures acts { TransactionsGoOnByActs }
{}

/// Once a subtransaction has an outcome that is not open, it has that outcome for as long as its
/// transaction is on record.
pub fn a_fixed_outcome_stays()
    ensures { OutcomesStay }
{}

/// A commit is issued to a member of an open push only by a collect, by the name of that member, that
/// answered it to be committed in the prepared phase, with a verdict of that hash.
pub fn a_commit_is_issued_by_a_collect()
    ensures { CommitsAreIssuedByCollects }
{}

/// From when it is issued, and for as long as the transaction is on record, the prepared phase has
/// decided for its hash, and standing votes that weigh at least the threshold of the members name it.
pub fn a_quorum_names_what_is_issued()
    ensures { IssuedCommitsAreNamed }
{}

/// In every state of every run, a commit that was issued under the lease of an open push is that of the
/// hash that its prepared phase decided for, and standing votes that weigh at least the threshold of
/// its members name it.
pub fn an_open_push_commits_what_it_decided()
    ensures { OpenPushesCommitWhatTheyDecided }
{}

/// A push begins with nothing done on it. If from then on members that are a quorum vote for it, for one
/// hash and in both phases, it ends committed, and its `Finish` answers so; unless a voter was withdrawn,
/// or it was canceled, stopped or ended before, or all was started again. So it ends where all vote.
pub fn a_push_that_a_quorum_votes_for_ends_committed()
    ensures begun { PushesBeginUntouched }
    ensures quorum { PushesThatAQuorumVotesForEndCommitted }
    ensures all { PushesThatAllVoteForEndCommitted }
{}
