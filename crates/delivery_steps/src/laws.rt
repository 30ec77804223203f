//! Each law is a function with nothing in it: what it ensures is proved for all values.

ghost use Rattle.cluster_history.specs.Goes.{LossGoesOn};
ghost use Rattle.delivery_steps.specs.Deliveries.{AbortGoesOn, ApplyGoesOn, CommitGoesOn, FenceGoesOn, MakeGoesOn, PrepareGoesOn, RefsGoOn, RemoveGoesOn, SnapshotGoesOn, UnansweredAbortGoesOn, UnansweredApplyGoesOn, UnansweredCommitGoesOn, UnansweredFenceGoesOn, UnansweredMakeGoesOn, UnansweredPrepareGoesOn, UnansweredRemoveGoesOn};

/// A create that is delivered makes the replica, whether its answer is kept or lost.
pub fn make_goes_on()
    ensures answered { MakeGoesOn }
    ensures unanswered { UnansweredMakeGoesOn }
{}

/// A prepare that is delivered makes the push ready at the node.
pub fn prepare_goes_on()
    ensures answered { PrepareGoesOn }
    ensures unanswered { UnansweredPrepareGoesOn }
{}

/// An abort that is delivered drops it.
pub fn abort_goes_on()
    ensures answered { AbortGoesOn }
    ensures unanswered { UnansweredAbortGoesOn }
{}

/// A commit that is delivered does it, and the entry of its generation has a content from then on.
pub fn commit_goes_on()
    ensures answered { CommitGoesOn }
    ensures unanswered { UnansweredCommitGoesOn }
{}

/// A fence that is delivered is raised at the node, also where that does not hold the repository.
pub fn fence_goes_on()
    ensures answered { FenceGoesOn }
    ensures unanswered { UnansweredFenceGoesOn }
{}

/// References that are read leave each repository as it was.
pub fn refs_go_on()
    ensures { RefsGoOn }
{}

/// An apply that is delivered leaves the replica with what the snapshot has that is kept, also long
/// after its job ended.
pub fn apply_goes_on()
    ensures answered { ApplyGoesOn }
    ensures unanswered { UnansweredApplyGoesOn }
{}

/// A remove that is delivered leaves no replica.
pub fn remove_goes_on()
    ensures answered { RemoveGoesOn }
    ensures unanswered { UnansweredRemoveGoesOn }
{}

/// A snapshot that is taken at the source of an update is kept, in the place of an older one.
pub fn snapshot_goes_on()
    ensures { SnapshotGoesOn }
{}

/// A node that loses pushes that were ready, of whichever repositories.
pub fn loss_goes_on()
    ensures { LossGoesOn }
{}
