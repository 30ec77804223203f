//! What is true of every list of moves: of events, whatever is answered, of effects whose answers
//! are lost, and of losses of pushes that were ready. A law is a function with nothing in it: what
//! it ensures is proved for all values.

ghost use Rattle.cluster_runs.specs.Conditions.{ConfirmersAreInDoubt, LateVotersAreAt, MembersAreAt, OneHasConfirmed};
ghost use Rattle.cluster_runs.specs.Current.{BookedReplicasHold, CurrentReplicasAgree};
ghost use Rattle.cluster_runs.specs.Current.{CurrentReplicasAgreeAtOnce, CurrentReplicasHold, LogsStay};
ghost use Rattle.cluster_runs.specs.Later.{BookingsNeverFall, NewestNeverFalls};
ghost use Rattle.cluster_runs.specs.Later.{ReadsGoToCurrentReplicas, ReplicasGoByDeletes, RoutedReadsAreAnswered};
ghost use Rattle.cluster_runs.specs.Lists.{EmptyNodesAreFit};
ghost use Rattle.cluster_runs.specs.Runs.{EachMoveGoesOn};
ghost use Rattle.cluster_runs.specs.Safe.{EveryRunIsSafe};

/// Each move is to each repository on record a list of events of that one repository, and a
/// repository that comes on record is created. So what is true of every list of events of one
/// repository is true of each repository of the cluster.
pub fn each_move_is_events_of_each_repository()
    ensures { EachMoveGoesOn }
{}

/// Over every list of moves from an empty book on, restarts among them, whatever whole repositories
/// the nodes hold before, with no push ready and what each committed last below its fence: where
/// the updates that are prepared are such as the type of pushes keeps them, and no two different
/// lists of them under one transaction share a vote, every state is safe, and so is every later
/// one; each repository stays on record, and what happens to it is a list of its own events; and
/// all that the references of a repository at a node lead to is there. Nodes that hold nothing are
/// such nodes.
pub fn every_run_is_safe()
    ensures run { EveryRunIsSafe }
    ensures start { EmptyNodesAreFit }
{}

/// From any state and over every list of moves, a repository stays on record under its number, with
/// its virtual storage and path, and its newest generation and its last lease never fall; nor do
/// the last numbers of transactions and of jobs.
pub fn newest_never_falls()
    ensures { NewestNeverFalls }
{}

/// The generation of a booking never falls: that which a replica is booked at, or held before it
/// came in doubt. Nor does it over a time in which it is booked absent.
pub fn a_booking_never_falls()
    ensures { BookingsNeverFall }
{}

/// A replica that was booked, at a generation or in doubt, is absent later only where a delete of
/// it was taken in between: a lease was drawn for that.
pub fn a_replica_goes_by_a_delete()
    ensures { ReplicasGoByDeletes }
{}

/// A replica that is booked at newest is held by its node, with exactly the references that the log
/// has of that generation and all objects that these lead to; and no effect that was issued for it
/// may still be done there, since the fence of the node is above the leases of all of them. A
/// replica that is booked at another generation holds just so that one or a later one, and one in
/// doubt that which it held before or a later one.
pub fn a_current_replica_holds_its_generation()
    ensures current { CurrentReplicasHold }
    ensures booked { BookedReplicasHold }
{}

/// Once the log has the content of a generation, it keeps that. So replicas that are booked at
/// newest hold the same references, in one state and in all for as long as newest stays.
pub fn current_replicas_hold_the_same()
    ensures log { LogsStay }
    ensures once { CurrentReplicasAgreeAtOnce }
    ensures later { CurrentReplicasAgree }
{}

/// A read that is not refused is routed to a storage that is up and whose replica is booked at
/// newest, and is told that generation. It is answered there, however late, with exactly the
/// content of that generation or of a later one; or the node does not hold the repository, and the
/// replica is booked absent, as a delete of it was taken in between.
pub fn a_routed_read_is_answered()
    ensures routed { ReadsGoToCurrentReplicas }
    ensures answered { RoutedReadsAreAnswered }
{}

/// In every safe cluster, as each state of every run is: the voters of a decision are booked at
/// newest, and one that comes late at the generation at which its push began; whoever confirms is
/// in doubt under the lease of its push; and between the decision and the first member that
/// confirms, no replica is booked at newest.
pub fn the_book_is_ready_for_votes()
    ensures members { MembersAreAt }
    ensures late { LateVotersAreAt }
    ensures confirmers { ConfirmersAreInDoubt }
    ensures first { OneHasConfirmed }
{}
