//! A node that faults at chosen calls.

ghost use Rattle.std.specs.Prelude.{◌≡◌, ◌≤◌, None, Err, IsSome, IfErr};
ghost use Rattle.px_base.specs.Causes.{one_more, Rose};
ghost use Rattle.px_base.specs.Memory.{CountsCall};
ghost use Rattle.node_calls.specs.Calls.{AbortRefuses, Aborts, ApplyRefuses, Applies, CommitRefuses, Commits, CreateRefuses, Creates, PrepareRefuses, Prepares, RemoveRefuses, Removes};
ghost use Rattle.node_calls.specs.Ends.{Ends, FenceEnds, ListEnds, NodeHasCause, PingEnds, ReadEnds, Told};
ghost use Rattle.node_calls.specs.Faulty.{KeepsPlan, fault_at};
ghost use Rattle.node_calls.specs.Reads.{HasObject, HasRefs, IsSnapshot};
ghost use Rattle.node_calls.specs.Refusals.{MayAnswer, Abort, Apply, Ask, Commit, Create, Fence, Prepare, Read, Remove};

use crate::{Node, NodeError, Snapshot};
use px_base::{Hash, Lease, Object, ObjectId, PathList, Push, RefList, RepoPath};
use std::alloc::Global;
use voters::Verdict;

/// When a call faults.
#[derive(Clone, Copy, Debug, PartialEq, Eq)]
pub enum When {
    /// Before its effect: nothing is done.
    Before,
    /// After its effect, which is done as it would be.
    After,
}

/// A call that is to fault.
#[derive(Clone, Copy, Debug, PartialEq, Eq)]
pub struct PlannedFault {
    /// The number of the call. The first one is 1.
    pub call: u64,
    /// When it faults.
    pub when: When,
}

// When the call of this number is to fault, if it is.
fn planned_at(planned: &[PlannedFault], call: u64) -> Option<When>
    ensures { result ≡ fault_at planned.now call }
{
    for fault in planned {
        if fault.call == call {
            return Some(fault.when);
        }
    }
    None
}

/// A node behind which another one does the work, and which faults at the planned calls; where two of
/// the list have one number, the first decides when. A fault of the other node is one of its own too.
#[derive(Drop)]
pub struct FaultyNode<N: Node + Drop> {
    inner: N,
    planned: Vec<PlannedFault>,
    calls: u64,
    faults: u64,
}

impl<N: Node + Drop> FaultyNode<N> {
    /// The node over this one. With an empty list it adds no faults.
    pub fn new(inner: N, planned: Vec<PlannedFault>) -> Self
        ensures node { result.inner ≡ inner }
        ensures faults { result.faults ≡ 0 }
        ensures calls { result.calls ≡ 0 }
        ensures planned { result.planned.items ≡ planned.items }
    {
        FaultyNode {
            inner,
            planned,
            calls: 0,
            faults: 0,
        }
    }

    /// The node behind it.
    pub fn into_inner(self) -> N
        ensures { result ≡ self.inner }
    {
        self.inner
    }

    // Counts a call, and says whether it is to fault, and when.
    fn next(&mut self) -> Option<When>
        ensures planned { result ≡ fault_at self.old.planned.items (one_more self.old.calls) }
        ensures calls { CountsCall self.old.calls self.new.calls
            self.old.planned.items self.new.planned.items }
        ensures inner { self.new.inner ≡ self.old.inner }
        ensures faults { self.new.faults ≡ self.old.faults }
    {
        self.calls = self.calls.saturating_add(1);
        planned_at(&self.planned, self.calls)
    }

    // Counts a fault.
    fn fail(&mut self) -> NodeError
        ensures fault { result ≡ NodeError.Fault }
        ensures inner { self.new.inner ≡ self.old.inner }
        ensures calls { self.new.calls ≡ self.old.calls }
        ensures plan { self.new.planned.items ≡ self.old.planned.items }
        ensures rose { (self.old.faults ≤ self.new.faults) × Rose self.old.faults self.new.faults }
    {
        self.faults = self.faults.saturating_add(1);
        NodeError::Fault
    }

    // Ends a call that the node behind has answered.
    fn end<A: Drop>(
        &mut self,
        planned: Option<When>,
        answer: Result<A, NodeError>,
    ) -> Result<A, NodeError>
        ensures inner { self.new.inner ≡ self.old.inner }
        ensures calls { self.new.calls ≡ self.old.calls }
        ensures plan { self.new.planned.items ≡ self.old.planned.items }
        ensures answer { planned ≡ None → result ≡ answer }
        ensures planned { IsSome planned → result ≡ Err NodeError.Fault }
        ensures cause { NodeHasCause self.old.faults self.new.faults result }
    {
        if planned.is_some() {
            return Err(self.fail());
        }
        match answer {
            Err(NodeError::Fault) => Err(self.fail()),
            Err(other) => Err(other),
            Ok(answer) => Ok(answer),
        }
    }
}

impl<N: Node + Drop> Node for FaultyNode<N> {
    ghost node = { λ f. N.node f.inner };

    ghost node_faults = { λ f. f.faults };

    fn create(&mut self, alloc: Global, repo: &RepoPath, lease: Lease) -> Result<(), NodeError>
        ensures ends { Told (Ends (CreateRefuses lease) (Creates lease) repo.now result)
            (N.node self.old.inner) (N.node self.new.inner) }
        ensures known { IfErr result (MayAnswer Create) }
        ensures cause { NodeHasCause self.old.faults self.new.faults result }
        ensures plan { KeepsPlan N.node_faults (fault_at self.old.planned.items (one_more self.old.calls))
            self.old.inner self.new.inner result }
        ensures calls { CountsCall self.old.calls self.new.calls
            self.old.planned.items self.new.planned.items }
    {
        let planned = self.next();
        if planned == Some(When::Before) {
            return Err(self.fail());
        }
        let answer = self.inner.create(alloc, repo, lease);
        self.end(planned, answer)
    }

    fn prepare(
        &mut self,
        alloc: Global,
        repo: &RepoPath,
        lease: Lease,
        push: &Push,
    ) -> Result<Hash, NodeError>
        ensures ends { Told (Ends (PrepareRefuses lease push.now) (Prepares lease push.now)
            repo.now result)
            (N.node self.old.inner) (N.node self.new.inner) }
        ensures known { IfErr result (MayAnswer Prepare) }
        ensures cause { NodeHasCause self.old.faults self.new.faults result }
        ensures plan { KeepsPlan N.node_faults (fault_at self.old.planned.items (one_more self.old.calls))
            self.old.inner self.new.inner result }
        ensures calls { CountsCall self.old.calls self.new.calls
            self.old.planned.items self.new.planned.items }
    {
        let planned = self.next();
        if planned == Some(When::Before) {
            return Err(self.fail());
        }
        let answer = self.inner.prepare(alloc, repo, lease, push);
        self.end(planned, answer)
    }

    fn commit(
        &mut self,
        alloc: Global,
        repo: &RepoPath,
        lease: Lease,
        verdict: &Verdict,
    ) -> Result<Hash, NodeError>
        ensures ends { Told (Ends (CommitRefuses lease verdict.now.hash)
            (Commits lease verdict.now.hash) repo.now result)
            (N.node self.old.inner) (N.node self.new.inner) }
        ensures known { IfErr result (MayAnswer Commit) }
        ensures cause { NodeHasCause self.old.faults self.new.faults result }
        ensures plan { KeepsPlan N.node_faults (fault_at self.old.planned.items (one_more self.old.calls))
            self.old.inner self.new.inner result }
        ensures calls { CountsCall self.old.calls self.new.calls
            self.old.planned.items self.new.planned.items }
    {
        let planned = self.next();
        if planned == Some(When::Before) {
            return Err(self.fail());
        }
        let answer = self.inner.commit(alloc, repo, lease, verdict);
        self.end(planned, answer)
    }

    fn abort(&mut self, alloc: Global, repo: &RepoPath, lease: Lease) -> Result<(), NodeError>
        ensures ends { Told (Ends (AbortRefuses lease) (Aborts lease) repo.now result)
            (N.node self.old.inner) (N.node self.new.inner) }
        ensures known { IfErr result (MayAnswer Abort) }
        ensures cause { NodeHasCause self.old.faults self.new.faults result }
        ensures plan { KeepsPlan N.node_faults (fault_at self.old.planned.items (one_more self.old.calls))
            self.old.inner self.new.inner result }
        ensures calls { CountsCall self.old.calls self.new.calls
            self.old.planned.items self.new.planned.items }
    {
        let planned = self.next();
        if planned == Some(When::Before) {
            return Err(self.fail());
        }
        let answer = self.inner.abort(alloc, repo, lease);
        self.end(planned, answer)
    }

    fn fence(
        &mut self,
        alloc: Global,
        repo: &RepoPath,
        lease: Lease,
    ) -> Result<Option<Lease>, NodeError>
        ensures ends { Told (FenceEnds lease repo.now result)
            (N.node self.old.inner) (N.node self.new.inner) }
        ensures known { IfErr result (MayAnswer Fence) }
        ensures cause { NodeHasCause self.old.faults self.new.faults result }
        ensures plan { KeepsPlan N.node_faults (fault_at self.old.planned.items (one_more self.old.calls))
            self.old.inner self.new.inner result }
        ensures calls { CountsCall self.old.calls self.new.calls
            self.old.planned.items self.new.planned.items }
    {
        let planned = self.next();
        if planned == Some(When::Before) {
            return Err(self.fail());
        }
        let answer = self.inner.fence(alloc, repo, lease);
        self.end(planned, answer)
    }

    fn refs(&mut self, alloc: Global, repo: &RepoPath) -> Result<RefList, NodeError>
        ensures ends { Told (ReadEnds HasRefs repo.now result)
            (N.node self.old.inner) (N.node self.new.inner) }
        ensures known { IfErr result (MayAnswer Read) }
        ensures cause { NodeHasCause self.old.faults self.new.faults result }
        ensures plan { KeepsPlan N.node_faults (fault_at self.old.planned.items (one_more self.old.calls))
            self.old.inner self.new.inner result }
        ensures calls { CountsCall self.old.calls self.new.calls
            self.old.planned.items self.new.planned.items }
    {
        let planned = self.next();
        if planned == Some(When::Before) {
            return Err(self.fail());
        }
        let answer = self.inner.refs(alloc, repo);
        self.end(planned, answer)
    }

    fn object(
        &mut self,
        alloc: Global,
        repo: &RepoPath,
        id: &ObjectId,
    ) -> Result<Option<Object>, NodeError>
        ensures ends { Told (ReadEnds (HasObject id.now) repo.now result)
            (N.node self.old.inner) (N.node self.new.inner) }
        ensures known { IfErr result (MayAnswer Read) }
        ensures cause { NodeHasCause self.old.faults self.new.faults result }
        ensures plan { KeepsPlan N.node_faults (fault_at self.old.planned.items (one_more self.old.calls))
            self.old.inner self.new.inner result }
        ensures calls { CountsCall self.old.calls self.new.calls
            self.old.planned.items self.new.planned.items }
    {
        let planned = self.next();
        if planned == Some(When::Before) {
            return Err(self.fail());
        }
        let answer = self.inner.object(alloc, repo, id);
        self.end(planned, answer)
    }

    fn snapshot(&mut self, alloc: Global, repo: &RepoPath) -> Result<Snapshot, NodeError>
        ensures ends { Told (ReadEnds IsSnapshot repo.now result)
            (N.node self.old.inner) (N.node self.new.inner) }
        ensures known { IfErr result (MayAnswer Read) }
        ensures cause { NodeHasCause self.old.faults self.new.faults result }
        ensures plan { KeepsPlan N.node_faults (fault_at self.old.planned.items (one_more self.old.calls))
            self.old.inner self.new.inner result }
        ensures calls { CountsCall self.old.calls self.new.calls
            self.old.planned.items self.new.planned.items }
    {
        let planned = self.next();
        if planned == Some(When::Before) {
            return Err(self.fail());
        }
        let answer = self.inner.snapshot(alloc, repo);
        self.end(planned, answer)
    }

    fn apply(
        &mut self,
        alloc: Global,
        repo: &RepoPath,
        lease: Lease,
        snapshot: &Snapshot,
    ) -> Result<(), NodeError>
        ensures ends { Told (Ends (ApplyRefuses lease snapshot.now) (Applies lease snapshot.now)
            repo.now result)
            (N.node self.old.inner) (N.node self.new.inner) }
        ensures known { IfErr result (MayAnswer Apply) }
        ensures cause { NodeHasCause self.old.faults self.new.faults result }
        ensures plan { KeepsPlan N.node_faults (fault_at self.old.planned.items (one_more self.old.calls))
            self.old.inner self.new.inner result }
        ensures calls { CountsCall self.old.calls self.new.calls
            self.old.planned.items self.new.planned.items }
    {
        let planned = self.next();
        if planned == Some(When::Before) {
            return Err(self.fail());
        }
        let answer = self.inner.apply(alloc, repo, lease, snapshot);
        self.end(planned, answer)
    }

    fn remove(&mut self, alloc: Global, repo: &RepoPath, lease: Lease) -> Result<(), NodeError>
        ensures ends { Told (Ends (RemoveRefuses lease) (Removes lease) repo.now result)
            (N.node self.old.inner) (N.node self.new.inner) }
        ensures known { IfErr result (MayAnswer Remove) }
        ensures cause { NodeHasCause self.old.faults self.new.faults result }
        ensures plan { KeepsPlan N.node_faults (fault_at self.old.planned.items (one_more self.old.calls))
            self.old.inner self.new.inner result }
        ensures calls { CountsCall self.old.calls self.new.calls
            self.old.planned.items self.new.planned.items }
    {
        let planned = self.next();
        if planned == Some(When::Before) {
            return Err(self.fail());
        }
        let answer = self.inner.remove(alloc, repo, lease);
        self.end(planned, answer)
    }

    fn list(&mut self, alloc: Global) -> Result<PathList, NodeError>
        ensures ends { Told (ListEnds result)
            (N.node self.old.inner) (N.node self.new.inner) }
        ensures known { IfErr result (MayAnswer Ask) }
        ensures cause { NodeHasCause self.old.faults self.new.faults result }
        ensures plan { KeepsPlan N.node_faults (fault_at self.old.planned.items (one_more self.old.calls))
            self.old.inner self.new.inner result }
        ensures calls { CountsCall self.old.calls self.new.calls
            self.old.planned.items self.new.planned.items }
    {
        let planned = self.next();
        if planned == Some(When::Before) {
            return Err(self.fail());
        }
        let answer = self.inner.list(alloc);
        self.end(planned, answer)
    }

    fn ping(&mut self) -> Result<(), NodeError>
        ensures ends { Told (PingEnds)
            (N.node self.old.inner) (N.node self.new.inner) }
        ensures known { IfErr result (MayAnswer Ask) }
        ensures cause { NodeHasCause self.old.faults self.new.faults result }
        ensures plan { KeepsPlan N.node_faults (fault_at self.old.planned.items (one_more self.old.calls))
            self.old.inner self.new.inner result }
        ensures calls { CountsCall self.old.calls self.new.calls
            self.old.planned.items self.new.planned.items }
    {
        let planned = self.next();
        if planned == Some(When::Before) {
            return Err(self.fail());
        }
        let answer = self.inner.ping();
        self.end(planned, answer)
    }

    fn faults(&self) -> u64 {
        self.faults
    }
}
