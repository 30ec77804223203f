//! What is true of every script. A law is a function with nothing in it: what it ensures is proved
//! for all values.

ghost use Rattle.script_rules.specs.Booked.{BookingsNeverFall, CurrentReplicasAgree, CurrentReplicasHold};
ghost use Rattle.script_rules.specs.Booked.{NewestNeverFalls, ReadsGoToCurrentReplicas};
ghost use Rattle.script_rules.specs.Booked.{ReplicasGoByDeletes, RoutedReadsAreAnswered};
ghost use Rattle.script_rules.specs.Commits.{CommitsAreNamed, OpenPushesCommitWhatTheyDecided};
ghost use Rattle.script_rules.specs.Complete.{PushesBeginUntouched, PushesThatAQuorumVotesForEndCommitted, PushesThatAllVoteForEndCommitted};
ghost use Rattle.script_rules.specs.Laws.{EveryStateIsSafe, LinesAreLawful, LinesAreOne};
ghost use Rattle.script_rules.specs.Laws.{NumbersAreGivenOnce, OutcomesStay, QuorumsNameHashes};
ghost use Rattle.script_rules.specs.Laws.{ScriptIsOne, ThresholdsAreMost};

/// Lines ask for one list of events.
pub fn lines_ask_one_list_of_events()
    ensures { LinesAreOne }
{}

/// A script has one run: its text alone decides the answers, and the cluster that it ends in.
pub fn a_script_has_one_run()
    ensures { ScriptIsOne }
{}

/// Each subtransaction keeps at most one outcome, whatever lines come: one that is not open is the
/// same in every later state, or the transaction is on record no more.
pub fn an_outcome_stays_until_the_transaction_is_closed()
    ensures { OutcomesStay }
{}

/// A number is given to one transaction: once that is on record no more, no transaction has the
/// number in any later state.
pub fn a_closed_number_is_not_given_again()
    ensures { NumbersAreGivenOnce }
{}

/// In every state of a script, standing votes of threshold weight name the hash that a
/// subtransaction commits, and the threshold is above half of the weight of all voters.
pub fn standing_votes_name_each_committed_hash()
    ensures quorum { QuorumsNameHashes }
    ensures most { ThresholdsAreMost }
{}

/// A node is told to commit a hash only by a collect of a voter who is committed in the prepared
/// phase. From then on, as long as the transaction is on record, that phase has decided for the
/// hash, and standing votes that weigh at least the threshold of the members name it. In every
/// state it is so of each commit that was issued under the lease of an open push.
pub fn a_commit_is_named_by_a_quorum()
    ensures issued { CommitsAreNamed }
    ensures open { OpenPushesCommitWhatTheyDecided }
{}

/// A push begins with nothing done on it. If from then on members that are a quorum vote for it,
/// for one hash and in both phases, it ends committed, and `finish` answers so; unless a voter was
/// withdrawn, or it was canceled, stopped or ended before. So it ends where all vote.
pub fn a_push_that_a_quorum_votes_for_ends_committed()
    ensures begun { PushesBeginUntouched }
    ensures quorum { PushesThatAQuorumVotesForEndCommitted }
    ensures all { PushesThatAllVoteForEndCommitted }
{}

/// Where no two different lists of updates that lines hand to nodes under one transaction share a
/// vote, every state of a script is safe, and so is every later one: what is booked of each replica
/// is so at its node, and what may still come to that takes nothing of it back. Updates are to be
/// lawful for it, and all that lines ask for are.
pub fn every_state_of_a_script_is_safe()
    ensures states { EveryStateIsSafe }
    ensures lines { LinesAreLawful }
{}

/// Whatever lines come, a repository stays on record, and its newest generation never falls.
pub fn newest_never_falls()
    ensures { NewestNeverFalls }
{}

/// Nor does the generation of a booking, also over a time in which the replica is booked absent:
/// that which it is booked at, or held before it came in doubt. It comes to be absent only where a
/// delete of it was taken. As for the laws that follow, no two different lists of updates that are
/// handed to nodes under one transaction may share a vote.
pub fn what_is_booked_never_falls()
    ensures falls { BookingsNeverFall }
    ensures goes { ReplicasGoByDeletes }
{}

/// In every state of a script, a replica that is booked at newest holds exactly the references of
/// that generation and all objects that these lead to, and nothing that was issued for it may still
/// change that; one that is booked or in doubt holds just so a generation that is not below its
/// booking. All that are booked at newest hold the same references, for as long as newest stays.
pub fn a_current_replica_holds_its_generation()
    ensures held { CurrentReplicasHold }
    ensures same { CurrentReplicasAgree }
{}

/// A read that is not refused is routed to a storage that is up and whose replica is booked at
/// newest, and is told that generation. When it comes to the node of that storage, also in a later
/// state, it is answered with exactly the content of that generation or of a later one; or the node
/// does not hold the repository, and the replica is booked absent, as a delete of it was taken in
/// between.
pub fn a_routed_read_is_answered()
    ensures routed { ReadsGoToCurrentReplicas }
    ensures answered { RoutedReadsAreAnswered }
{}
