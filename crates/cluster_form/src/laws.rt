//! What is true of the data of a cluster after every list of moves: of events, whatever is answered, of
//! effects whose answers are lost, and of losses of pushes that were ready. A law is a function with
//! nothing in it: what it ensures is proved for all values.

ghost use Rattle.cluster_form.specs.Always.{HoldsAlways, IsKept, IsKeptByOps, IsKeptByRestarts, OfCore};
ghost use Rattle.cluster_form.specs.Books.{AreBooks};
ghost use Rattle.cluster_form.specs.Drawn.{AreLeasesDrawn};
ghost use Rattle.cluster_form.specs.Form.{HasForm};
ghost use Rattle.cluster_form.specs.Homes.{AreJobsHome};
ghost use Rattle.cluster_form.specs.Jobs.{AreJobs};
ghost use Rattle.cluster_form.specs.Left.{AreLeft, IsFormedAndLeft};
ghost use Rattle.cluster_form.specs.Routes.{AreRoutes};
ghost use Rattle.cluster_form.specs.Tables.{AreTables};
ghost use Rattle.cluster_form.specs.Turns.{AreTurns};
ghost use Rattle.cluster_form.specs.Within.{AreWithin};
ghost use Rattle.px_cluster.specs.Core.{empty};

/// Each move keeps the form of the data: all that the laws below say, together. So it is there after
/// every list of moves from an empty book on, restarts among them, whatever the nodes held before.
pub fn each_move_keeps_the_form()
    ensures step { IsKept HasForm }
    ensures run { HoldsAlways HasForm }
{}

/// A name of a storage is given once. It is known of each storage whether it is up, and of each
/// repository how many reads were routed.
pub fn storage_names_are_given_once()
    ensures { HoldsAlways (OfCore AreTables) }
{}

/// A repository has a replica for each storage of its virtual storage and for no other one, in their
/// order, so what is assigned is of it too. Some storage is assigned. A path is given once in a virtual
/// storage.
pub fn a_repository_has_a_replica_on_each_storage()
    ensures { HoldsAlways (OfCore AreBooks) }
{}

/// Jobs stand in the order of their numbers, which were given. A repository and target has one job at
/// most. None is completed or cancelled, and each is for a replica of a repository on record.
pub fn a_replica_has_one_job_at_most()
    ensures jobs { HoldsAlways (OfCore AreJobs) }
    ensures homes { HoldsAlways (OfCore AreJobsHome) }
{}

/// Transactions stand in the order of their numbers, which were given. A repository has one open push
/// at most. Its transaction is on record: a vote of its members in their order, each once, with the
/// weights and the threshold of the rule, of two subtransactions that form a chain.
pub fn an_open_push_is_a_vote_of_its_members()
    ensures { HoldsAlways (OfCore AreTurns) }
{}

/// The generations of bookings, jobs and open pushes are at most the newest one of their repository, and
/// the leases that are kept for replicas, jobs and open pushes at most the last one that was drawn.
pub fn no_number_is_ahead_of_what_was_given()
    ensures { HoldsAlways (OfCore AreWithin) }
{}

/// An effect was issued only under a lease that was drawn, for a storage of the virtual storage of a
/// repository on record; and under the lease of an open push only to its members.
pub fn effects_have_leases_that_were_drawn()
    ensures { HoldsAlways AreLeasesDrawn }
{}

/// Each transaction of a push that ever began leads to a lease that was drawn, for it alone, and that of
/// an open push to its own. Each job that was ever taken leads to a replica of its repository.
pub fn effects_go_where_they_were_issued()
    ensures { HoldsAlways AreRoutes }
{}

/// As long as the prepared phase of an open push is open, the newest generation of its repository is
/// below 2^64 - 1, so that the vote that decides can raise it. Each move keeps that, together with the
/// form of the core.
pub fn a_generation_is_left_for_each_open_push()
    ensures step { IsKept (OfCore IsFormedAndLeft) }
    ensures run { HoldsAlways (OfCore AreLeft) }
{}

/// The same of a core alone, whose nodes are not seen: each operation keeps both, whatever the nodes
/// answered, and so does a restart; and both are so without storages.
pub fn each_operation_keeps_the_core()
    ensures step { IsKeptByOps IsFormedAndLeft }
    ensures restart { IsKeptByRestarts IsFormedAndLeft }
    ensures start { IsFormedAndLeft empty }
{}
