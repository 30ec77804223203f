//! Each law is a function with nothing in it: what it ensures is proved for all values.

ghost use Rattle.replica_invariant.specs.Creations.{AdmitKeeps, AppearKeeps, AssignKeeps, CreateKeeps, EnrolKeeps, FirstCreateKeeps, MakeKeeps};
ghost use Rattle.replica_invariant.specs.Pushes.{AbortKeeps, BeginKeeps, CommitKeeps, ConfirmKeeps, DecideKeeps, FinishKeeps, IssueKeeps, JoinKeeps, LoseKeeps, PrepareKeeps, VotesKeep};

/// A repository that is created for the first time has the invariant, over whatever the nodes have
/// of its path.
pub fn first_create_keeps()
    ensures { FirstCreateKeeps }
{}

/// Creating it again keeps the invariant.
pub fn create_keeps()
    ensures { CreateKeeps }
{}

/// So does a create that is delivered, whether its answer is kept or not.
pub fn make_keeps()
    ensures { MakeKeeps }
{}

/// So does the enrolment of a replica that was made.
pub fn enrol_keeps()
    ensures { EnrolKeeps }
{}

/// So does the admission of a storage.
pub fn admit_keeps()
    ensures { AdmitKeeps }
{}

/// So does a node that appears where nothing was ever recorded of the replica, with whatever calls
/// made of an empty one.
pub fn appear_keeps()
    ensures { AppearKeeps }
{}

/// So does another factor.
pub fn assign_keeps()
    ensures { AssignKeeps }
{}

/// So does the beginning of a push.
pub fn begin_keeps()
    ensures { BeginKeeps }
{}

/// So does a prepare that is delivered.
pub fn prepare_keeps()
    ensures { PrepareKeeps }
{}

/// So does an abort that is delivered.
pub fn abort_keeps()
    ensures { AbortKeeps }
{}

/// So does the loss of a push that was ready at a node.
pub fn lose_keeps()
    ensures { LoseKeeps }
{}

/// So does the vote that decides a push.
pub fn decide_keeps()
    ensures { DecideKeeps }
{}

/// So does a vote for the decided hash that comes late.
pub fn join_keeps()
    ensures { JoinKeeps }
{}

/// So does the issue of a commit to a member that is told.
pub fn issue_keeps()
    ensures { IssueKeeps }
{}

/// So does a commit that is delivered, also long after its push ended, and whether its answer is
/// kept or not.
pub fn commit_keeps()
    ensures { CommitKeeps }
{}

/// So does the vote of a member for the decided hash in the committed phase.
pub fn confirm_keeps()
    ensures { ConfirmKeeps }
{}

/// So do votes of the committed phase by which nothing is booked.
pub fn votes_keep()
    ensures { VotesKeep }
{}

/// So does the end of a push, and a restart, which drops it.
pub fn finish_keeps()
    ensures { FinishKeeps }
{}
