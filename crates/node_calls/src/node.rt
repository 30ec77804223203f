//! A storage node.

ghost use Rattle.std.specs.Prelude.{◌≡◌, ℕ, Option, IfErr};
ghost use Rattle.node_calls.specs.Calls.{AbortRefuses, Aborts, ApplyRefuses, Applies, CommitRefuses, Commits, CreateRefuses, Creates, PrepareRefuses, Prepares, RemoveRefuses, Removes};
ghost use Rattle.node_calls.specs.Ends.{Ends, FenceEnds, ListEnds, NodeHasCause, PingEnds, ReadEnds, Told};
ghost use Rattle.node_calls.specs.ReplicaState.{NodeState};
ghost use Rattle.node_calls.specs.Reads.{HasObject, HasRefs, IsSnapshot};
ghost use Rattle.node_calls.specs.Refusals.{MayAnswer, Abort, Apply, Ask, Commit, Create, Fence, Prepare, Read, Remove};

use crate::{NodeRefusal, Snapshot};
use px_base::{Hash, Lease, Object, ObjectId, PathList, Push, RefList, RepoPath};
use std::alloc::{AllocError, Global};
use voters::Verdict;

/// Why a node did not answer.
#[derive(Debug, Drop, PartialEq, Eq)]
pub enum NodeError {
    /// The node, its keeper or the way to it failed, and its count rose.
    Fault,
    /// Memory wanted.
    Memory,
    /// The node does not do this.
    Refused(NodeRefusal),
}

impl From<AllocError> for NodeError {
    ghost use Rattle.std.specs.Prelude.{◌≡◌};
    ghost use Rattle.node_calls.specs.declared.node.NodeError.TheVariants.{Memory};

    ghost from_gives = { λ _ e. e ≡ Memory };

    fn from(_: AllocError) -> NodeError {
        NodeError::Memory
    }
}

/// What holds replicas of repositories, and changes them under leases. An effect whose lease is below
/// the fence of its repository is refused, so that what comes late does no harm.
///
/// A node may tell what it has, as one over a keeper in memory does; of one that tells nothing only
/// the faults, and which refusals a call may give, are known.
///
/// Each call says with what it is refused: with the first that holds, in the order in which they stand
/// there. A refusal leaves the node as it was, but for that of `fence`. Each call may also answer
/// `Fault`, where its count of faults rose, or `Memory`; that may come before the effect or after it.
pub trait Node {
    /// What the node has of each repository, where it tells.
    ghost node: { Self → Option NodeState };

    /// How often the node has faulted, up to the last value of a `u64`, where the count stays.
    ghost node_faults: { Self → ℕ };

    /// Holds a repository with no references and no objects.
    ///
    /// Refused with `Fenced`, where the lease is below the fence; with `RepoExists`, where the
    /// repository is held with references.
    fn create(&mut self, alloc: Global, repo: &RepoPath, lease: Lease) -> Result<(), NodeError>
        ensures ends { Told (Ends (CreateRefuses lease) (Creates lease) repo.now result)
            (node self.old) (node self.new) }
        ensures known { IfErr result (MayAnswer Create) }
        ensures cause { NodeHasCause (node_faults self.old) (node_faults self.new) result };

    /// Makes a push ready to be done, and answers its vote. A push that was ready before is dropped,
    /// and the fence is then the lease.
    ///
    /// Refused with `Fenced`; with `NoRepo`, where the repository is not held; with `BadObject` or
    /// `Collision`, for the first object of the push that breaks the form of its kind, or whose name is
    /// that of another one here or before it; with `Empty`, `Void`, `Twice`, `Stale`, `Conflict` or
    /// `TooManyRefs`, as `Prepared::new` of `refstore` refuses the updates; with `Missing`, where what
    /// the updates give to names leads to an object that neither the node nor the push has.
    fn prepare(
        &mut self,
        alloc: Global,
        repo: &RepoPath,
        lease: Lease,
        push: &Push,
    ) -> Result<Hash, NodeError>
        ensures ends { Told (Ends (PrepareRefuses lease push.now) (Prepares lease push.now)
            repo.now result) (node self.old) (node self.new) }
        ensures known { IfErr result (MayAnswer Prepare) }
        ensures cause { NodeHasCause (node_faults self.old) (node_faults self.new) result };

    /// Does the push that is ready under this lease, and answers its vote.
    ///
    /// Refused with `Fenced`; with `NoRepo`; with `NotPrepared`, where no push of this lease is ready;
    /// with `VoteDiffers`, where the verdict is on another hash than the vote of that push.
    fn commit(
        &mut self,
        alloc: Global,
        repo: &RepoPath,
        lease: Lease,
        verdict: &Verdict,
    ) -> Result<Hash, NodeError>
        ensures ends { Told (Ends (CommitRefuses lease verdict.now.hash)
            (Commits lease verdict.now.hash) repo.now result) (node self.old) (node self.new) }
        ensures known { IfErr result (MayAnswer Commit) }
        ensures cause { NodeHasCause (node_faults self.old) (node_faults self.new) result };

    /// Drops the push that is ready, if there is one.
    ///
    /// Refused with `Fenced`; with `NoRepo`.
    fn abort(&mut self, alloc: Global, repo: &RepoPath, lease: Lease) -> Result<(), NodeError>
        ensures ends { Told (Ends (AbortRefuses lease) (Aborts lease) repo.now result)
            (node self.old) (node self.new) }
        ensures known { IfErr result (MayAnswer Abort) }
        ensures cause { NodeHasCause (node_faults self.old) (node_faults self.new) result };

    /// Raises the fence to the lease, where it is below, and answers the lease of the last push that
    /// was done.
    ///
    /// Refused with `NoRepo`, where the repository is not held; its fence is raised all the same.
    fn fence(
        &mut self,
        alloc: Global,
        repo: &RepoPath,
        lease: Lease,
    ) -> Result<Option<Lease>, NodeError>
        ensures ends { Told (FenceEnds lease repo.now result) (node self.old) (node self.new) }
        ensures known { IfErr result (MayAnswer Fence) }
        ensures cause { NodeHasCause (node_faults self.old) (node_faults self.new) result };

    /// The references of a repository. Refused with `NoRepo`.
    fn refs(&mut self, alloc: Global, repo: &RepoPath) -> Result<RefList, NodeError>
        ensures ends { Told (ReadEnds HasRefs repo.now result) (node self.old) (node self.new) }
        ensures known { IfErr result (MayAnswer Read) }
        ensures cause { NodeHasCause (node_faults self.old) (node_faults self.new) result };

    /// An object of a repository, if it has one of that name. Refused with `NoRepo`.
    fn object(
        &mut self,
        alloc: Global,
        repo: &RepoPath,
        id: &ObjectId,
    ) -> Result<Option<Object>, NodeError>
        ensures ends { Told (ReadEnds (HasObject id.now) repo.now result)
            (node self.old) (node self.new) }
        ensures known { IfErr result (MayAnswer Read) }
        ensures cause { NodeHasCause (node_faults self.old) (node_faults self.new) result };

    /// The references of a repository, and the objects that a walk from them takes. Refused with
    /// `NoRepo`.
    fn snapshot(&mut self, alloc: Global, repo: &RepoPath) -> Result<Snapshot, NodeError>
        ensures ends { Told (ReadEnds IsSnapshot repo.now result) (node self.old) (node self.new) }
        ensures known { IfErr result (MayAnswer Read) }
        ensures cause { NodeHasCause (node_faults self.old) (node_faults self.new) result };

    /// Holds a repository with the references of a snapshot, and its objects beside those that are
    /// there.
    ///
    /// Refused with `Fenced`; with `BadObject` or `Collision`, for the objects of the snapshot, as
    /// `prepare` is; with `Missing`, where its references lead to an object that neither has.
    fn apply(
        &mut self,
        alloc: Global,
        repo: &RepoPath,
        lease: Lease,
        snapshot: &Snapshot,
    ) -> Result<(), NodeError>
        ensures ends { Told (Ends (ApplyRefuses lease snapshot.now) (Applies lease snapshot.now)
            repo.now result) (node self.old) (node self.new) }
        ensures known { IfErr result (MayAnswer Apply) }
        ensures cause { NodeHasCause (node_faults self.old) (node_faults self.new) result };

    /// Holds a repository no longer. Its fence, and the lease of its last push, outlive it. Refused
    /// with `Fenced`.
    fn remove(&mut self, alloc: Global, repo: &RepoPath, lease: Lease) -> Result<(), NodeError>
        ensures ends { Told (Ends (RemoveRefuses lease) (Removes lease) repo.now result)
            (node self.old) (node self.new) }
        ensures known { IfErr result (MayAnswer Remove) }
        ensures cause { NodeHasCause (node_faults self.old) (node_faults self.new) result };

    /// The paths of the repositories that are held, in the order of their bytes. Never refused.
    fn list(&mut self, alloc: Global) -> Result<PathList, NodeError>
        ensures ends { Told (ListEnds result) (node self.old) (node self.new) }
        ensures known { IfErr result (MayAnswer Ask) }
        ensures cause { NodeHasCause (node_faults self.old) (node_faults self.new) result };

    /// Whether the node answers at all. Never refused.
    fn ping(&mut self) -> Result<(), NodeError>
        ensures ends { Told PingEnds (node self.old) (node self.new) }
        ensures known { IfErr result (MayAnswer Ask) }
        ensures cause { NodeHasCause (node_faults self.old) (node_faults self.new) result };

    /// How often the node has faulted.
    fn faults(&self) -> u64
        ensures { result ≡ node_faults self.now };
}
