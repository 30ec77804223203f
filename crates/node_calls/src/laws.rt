//! What is true of every call on a node, and of all calls one after the other. A law is a function
//! with nothing in it: what it ensures is proved for all values.

ghost use Rattle.std.specs.Prelude.{ℕ, ◌<◌, ◌≤◌, List, Option, Result};
ghost use Rattle.px_base.specs.declared.hash.Hash.{Hash};
ghost use Rattle.px_base.specs.declared.push.Push.{Push};
ghost use Rattle.node_calls.specs.Calls.{AbortRefuses, Aborts, ApplyRefuses, Applies, CommitRefuses, Commits, CreateRefuses, Creates, PrepareRefuses, Prepares, RemoveRefuses, Removes};
ghost use Rattle.node_calls.specs.Ends.{Ends, FenceEnds};
ghost use Rattle.node_calls.specs.ReplicaState.{NodeState, Same, nothing};
ghost use Rattle.node_calls.specs.Whole.{IsWhole, IsWholeReplica};
ghost use Rattle.node_calls.specs.Steps.{HasNoEffect, IsRun, IsStep};
ghost use Rattle.node_calls.specs.declared.node.NodeError.{NodeError};
ghost use Rattle.node_calls.specs.declared.snapshot.Snapshot.{Snapshot};

/// An effect whose lease is below the fence of its repository changes nothing, and is not done, also
/// where it ends in a fault or for want of memory. So what comes late does no harm. To raise the
/// fence to such a lease changes nothing either.
pub fn what_is_below_the_fence_changes_nothing()
    ensures create { (lease : ℕ) (path : List ℕ) (result : Result (Unit {0}) NodeError)
        (old new : NodeState) → lease < (old path).fence
        → Ends (CreateRefuses lease) (Creates lease) path result old new
        → HasNoEffect result old new }
    ensures prepare { (lease : ℕ) (push : Push) (path : List ℕ) (result : Result Hash NodeError)
        (old new : NodeState) → lease < (old path).fence
        → Ends (PrepareRefuses lease push) (Prepares lease push) path result old new
        → HasNoEffect result old new }
    ensures commit { (lease : ℕ) (hash : Hash) (path : List ℕ) (result : Result Hash NodeError)
        (old new : NodeState) → lease < (old path).fence
        → Ends (CommitRefuses lease hash) (Commits lease hash) path result old new
        → HasNoEffect result old new }
    ensures abort { (lease : ℕ) (path : List ℕ) (result : Result (Unit {0}) NodeError)
        (old new : NodeState) → lease < (old path).fence
        → Ends (AbortRefuses lease) (Aborts lease) path result old new
        → HasNoEffect result old new }
    ensures fence { (lease : ℕ) (path : List ℕ) (result : Result (Option ℕ) NodeError)
        (old new : NodeState) → IsWhole old → lease < (old path).fence
        → FenceEnds lease path result old new → Same old new }
    ensures apply { (lease : ℕ) (given : Snapshot) (path : List ℕ)
        (result : Result (Unit {0}) NodeError)
        (old new : NodeState) → lease < (old path).fence
        → Ends (ApplyRefuses lease given) (Applies lease given) path result old new
        → HasNoEffect result old new }
    ensures remove { (lease : ℕ) (path : List ℕ) (result : Result (Unit {0}) NodeError)
        (old new : NodeState) → lease < (old path).fence
        → Ends (RemoveRefuses lease) (Removes lease) path result old new
        → HasNoEffect result old new }
{}

/// The fence of a repository never falls, at any call and over all calls one after the other. So it
/// outlives the removal of the repository, and the end of the node's process.
pub fn fences_never_fall()
    ensures step { (old new : NodeState) → IsStep old new → (path : List ℕ)
        → (old path).fence ≤ (new path).fence }
    ensures run { (old new : NodeState) → IsRun old new → (path : List ℕ)
        → (old path).fence ≤ (new path).fence }
{}

/// All that the references of a repository lead to is there, and will be there once the push that is
/// ready is done; and the objects and the references are such as a repository may have. This holds
/// where a node has nothing, and each call keeps it, whatever it answers, and so does the end of the
/// node's process.
pub fn what_is_held_is_closed()
    ensures first { IsWholeReplica nothing }
    ensures step { (old new : NodeState) → IsStep old new → IsWhole old → IsWhole new }
    ensures run { (old new : NodeState) → IsRun old new → IsWhole old → IsWhole new }
{}
