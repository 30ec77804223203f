//! A node over a keeper of rows.

ghost use Rattle.std.specs.Prelude.{◌≡◌, ◌≤◌, ℕ, List, None, Some, Ok, IsSome, IfOk, IfSome, IfErr, OnOk, OnErr};
ghost use Rattle.node_calls.specs.Calls.{AbortRefuses, Aborts, ApplyRefuses, Applies, CommitRefuses, Commits, CreateRefuses, Creates, PrepareRefuses, Prepares, RemoveRefuses, Removes};
ghost use Rattle.node_replica.specs.Checks.{IsNoRefusal, IsNotFault, IsRefusal};
ghost use Rattle.node_calls.specs.Ends.{Ends, FenceEnds, IsRaised, ListEnds, NodeHasCause, ReadEnds};
ghost use Rattle.node_calls.specs.Reads.{HasObject, HasRefs, IsSnapshot};
ghost use Rattle.node_calls.specs.Refusals.{MayAnswer, Abort, Apply, Ask, Commit, Create, Fence, Prepare, Read, Remove};
ghost use Rattle.node_calls.specs.Lawful.{IsLawful};
ghost use Rattle.node_calls.specs.ReplicaState.{NodeState, nothing, without_ready};
ghost use Rattle.node_rows.specs.Rows.{StandFor};
ghost use Rattle.px_keeper.specs.Row.{Rows};
ghost use Rattle.px_keeper.specs.OpenEnds.{IsNoFault, IsNotBad, OpensNot, keeper_in};
ghost use Rattle.px_node.specs.OpenEnds.{Opens};
ghost use Rattle.node_rows.specs.BadRow.{IsGood};
ghost use Rattle.px_node.specs.Shelf.{AreLawful, RowsStand, Stays, place_at};
ghost use Rattle.std.proofs.Props.{props};
ghost use Rattle.std.specs.FinMap.{empty};

use crate::opening::Told;
use crate::replicas::{self, Replicas, Unheard, find, keep_rows, make_room};
use node_calls::{Node, NodeError, NodeRefusal, Snapshot};
use px_base::{Hash, Lease, Object, ObjectId, PathList, Push, RefList, RepoPath};
use px_keeper::{Keeper, OpenFault, read_all};
use std::alloc::Global;
use std::collections::BTreeMap;
use voters::Verdict;

/// A node that keeps what it has as rows of a keeper. Each effect is one batch, which is kept before
/// the effect is taken; pushes that are ready are held in memory, and end with the process.
#[derive(Drop)]
pub struct Shelf<K: Keeper + Drop> {
    keeper: K,
    replicas: Replicas,
    unheard: Unheard,
    ghost rows_stand: { RowsStand (K.rows keeper) (place_at replicas.entries) } by { Prim.hlevel props },
    ghost lawful: { AreLawful replicas.entries } by { Prim.hlevel props },
}

impl<K: Keeper + Drop> Shelf<K> {
    /// The node over a keeper that has no rows: it has nothing.
    pub fn new(alloc: Global, keeper: K) -> Self
        requires { IfSome (K.rows keeper) (λ rows. rows ≡ empty) }
        ensures node { (path : List ℕ) → place_at result.replicas.entries path ≡ nothing }
        ensures keeper { result.keeper ≡ keeper }
    {
        Shelf {
            keeper,
            replicas: BTreeMap::new(alloc),
            unheard: Unheard::new(alloc),
        }
    }

    /// The node that the rows of a keeper stand for, each of which is read once, in the order of their
    /// tables and keys. No push is ready there: those that were ended with the process.
    pub fn open(alloc: Global, keeper: K) -> Result<Self, OpenFault<K>>
        // The rows are good, and stand for the node; the keeper is as it was.
        ensures ok { IfOk result (λ shelf. Opens (K.rows keeper) (place_at shelf.replicas.entries)) }
        ensures unready { IfOk result (λ shelf. (path : List ℕ)
            → (place_at shelf.replicas.entries path).ready ≡ None) }
        ensures keeper { IfOk result (λ shelf. (K.rows shelf.keeper ≡ K.rows keeper)
            × (K.keep_faults shelf.keeper ≡ K.keep_faults keeper)) }
        ensures err { IfErr result (OpensNot IsGood K.rows K.keep_faults keeper) }

        // What a node left gives it back, without the pushes that were ready.
        ensures again { (rows : Rows) (node : NodeState) → K.rows keeper ≡ Some rows
            → IsLawful node → StandFor rows node → IfOk result (λ shelf. (path : List ℕ)
            → place_at shelf.replicas.entries path ≡ without_ready (node path)) }
        ensures good { (rows : Rows) (node : NodeState) → K.rows keeper ≡ Some rows
            → IsLawful node → StandFor rows node → IfErr result IsNotBad }

        // Whether the next commit fails is as it was, and a keeper that tells it does not fail here.
        ensures plan { IfOk result (λ shelf. K.commit_fails shelf.keeper ≡ K.commit_fails keeper) }
        ensures plan_kept { IfErr result (λ fault.
            K.commit_fails (keeper_in fault) ≡ K.commit_fails keeper) }
        ensures sure { IsSome (K.commit_fails keeper) → IfErr result IsNoFault }
    {
        match read_all(alloc, keeper, Told::new(alloc)) {
            Ok((keeper, told)) => Ok(Shelf {
                keeper,
                replicas: told.replicas,
                unheard: Unheard::new(alloc),
            }),
            Err(fault) => Err(fault),
        }
    }

    /// The keeper, whose rows stand for what the node has.
    pub fn into_keeper(self) -> K
        ensures keeper { result ≡ self.keeper }
        ensures rows { RowsStand (K.rows result) (place_at self.replicas.entries) }
        ensures lawful { IsLawful (place_at self.replicas.entries) }
    {
        self.keeper
    }

    // Raises the fence of a repository to the lease, where it is below.
    fn raise(&mut self, alloc: Global, repo: &RepoPath, lease: Lease) -> Result<(), NodeError>
        ensures ok { OnOk result (IsRaised lease repo.now (place_at self.old.replicas.entries)
            (place_at self.new.replicas.entries)) }
        ensures err { OnErr result (Stays (place_at self.old.replicas.entries)
            (place_at self.new.replicas.entries)
            (K.rows self.old.keeper) (K.rows self.new.keeper)) }
        ensures known { IfErr result IsNoRefusal }
        ensures cause { NodeHasCause (K.keep_faults self.old.keeper)
            (K.keep_faults self.new.keeper) result }
        ensures idle { lease ≤ (place_at self.old.replicas.entries repo.now).fence
            → (result ≡ Ok tt) × (self.new.keeper ≡ self.old.keeper) }
    {
        let replica = find(&self.replicas, repo, &self.unheard);
        if !replica.is_below(lease) {
            return Ok(());
        }
        let batch = replica.rows_fenced(alloc, repo, lease.number())?;
        keep_rows(alloc, &mut self.replicas, &mut self.keeper, batch, repo)?;
        replicas::raise(&mut self.replicas, repo, lease);
        Ok(())
    }
}

impl<K: Keeper + Drop> Node for Shelf<K> {
    ghost node = { λ s. Some (place_at s.replicas.entries) };

    ghost node_faults = { λ s. K.keep_faults s.keeper };

    fn create(&mut self, alloc: Global, repo: &RepoPath, lease: Lease) -> Result<(), NodeError>
        ensures ends { Ends (CreateRefuses lease) (Creates lease) repo.now result
            (place_at self.old.replicas.entries)
            (place_at self.new.replicas.entries) }
        ensures known { IfErr result (MayAnswer Create) }
        ensures cause { NodeHasCause (K.keep_faults self.old.keeper)
            (K.keep_faults self.new.keeper) result }
        ensures err { OnErr result (Stays (place_at self.old.replicas.entries)
            (place_at self.new.replicas.entries)
            (K.rows self.old.keeper) (K.rows self.new.keeper)) }
        ensures refused { IfErr result (λ e. IsRefusal e → self.new.keeper ≡ self.old.keeper) }
    {
        let replica = find(&self.replicas, repo, &self.unheard);
        replica.may_create(lease)?;
        let batch = replica.rows_emptied(alloc, repo, lease, true)?;
        keep_rows(alloc, &mut self.replicas, &mut self.keeper, batch, repo)?;
        replicas::create(alloc, &mut self.replicas, repo, lease);
        Ok(())
    }

    fn prepare(
        &mut self,
        alloc: Global,
        repo: &RepoPath,
        lease: Lease,
        push: &Push,
    ) -> Result<Hash, NodeError>
        ensures ends { Ends (PrepareRefuses lease push.now) (Prepares lease push.now)
            repo.now result
            (place_at self.old.replicas.entries)
            (place_at self.new.replicas.entries) }
        ensures known { IfErr result (MayAnswer Prepare) }
        ensures cause { NodeHasCause (K.keep_faults self.old.keeper)
            (K.keep_faults self.new.keeper) result }
        ensures err { OnErr result (Stays (place_at self.old.replicas.entries)
            (place_at self.new.replicas.entries)
            (K.rows self.old.keeper) (K.rows self.new.keeper)) }
        ensures refused { IfErr result (λ e. IsRefusal e → self.new.keeper ≡ self.old.keeper) }
    {
        let replica = find(&self.replicas, repo, &self.unheard);
        let batch = replica.rows_fenced(alloc, repo, lease.number())?;
        let ready = match replica.prepared(alloc, lease, push) {
            Ok(ready) => ready,
            Err(error) => return Err(error),
        };
        keep_rows(alloc, &mut self.replicas, &mut self.keeper, batch, repo)?;
        let vote = ready.vote;
        replicas::prepare(&mut self.replicas, repo, ready);
        Ok(vote)
    }

    fn commit(
        &mut self,
        alloc: Global,
        repo: &RepoPath,
        lease: Lease,
        verdict: &Verdict,
    ) -> Result<Hash, NodeError>
        ensures ends { Ends (CommitRefuses lease verdict.now.hash)
            (Commits lease verdict.now.hash) repo.now result
            (place_at self.old.replicas.entries)
            (place_at self.new.replicas.entries) }
        ensures known { IfErr result (MayAnswer Commit) }
        ensures cause { NodeHasCause (K.keep_faults self.old.keeper)
            (K.keep_faults self.new.keeper) result }
        ensures err { OnErr result (Stays (place_at self.old.replicas.entries)
            (place_at self.new.replicas.entries)
            (K.rows self.old.keeper) (K.rows self.new.keeper)) }
        ensures refused { IfErr result (λ e. IsRefusal e → self.new.keeper ≡ self.old.keeper) }
    {
        let replica = find(&self.replicas, repo, &self.unheard);
        replica.may_commit(lease, &verdict.hash())?;
        let batch = replica.rows_committed(alloc, repo, lease)?;
        replicas::commit(
            alloc,
            &mut self.replicas,
            &mut self.keeper,
            batch,
            repo,
            lease,
        )
    }

    fn abort(&mut self, alloc: Global, repo: &RepoPath, lease: Lease) -> Result<(), NodeError>
        ensures ends { Ends (AbortRefuses lease) (Aborts lease) repo.now result
            (place_at self.old.replicas.entries)
            (place_at self.new.replicas.entries) }
        ensures known { IfErr result (MayAnswer Abort) }
        ensures cause { NodeHasCause (K.keep_faults self.old.keeper)
            (K.keep_faults self.new.keeper) result }
        ensures err { OnErr result (Stays (place_at self.old.replicas.entries)
            (place_at self.new.replicas.entries)
            (K.rows self.old.keeper) (K.rows self.new.keeper)) }
        ensures refused { IfErr result (λ e. IsRefusal e → self.new.keeper ≡ self.old.keeper) }
    {
        let replica = find(&self.replicas, repo, &self.unheard);
        replica.may_abort(lease)?;
        let batch = replica.rows_fenced(alloc, repo, lease.number() + 1)?;
        keep_rows(alloc, &mut self.replicas, &mut self.keeper, batch, repo)?;
        replicas::abort(&mut self.replicas, repo, lease);
        Ok(())
    }

    fn fence(
        &mut self,
        alloc: Global,
        repo: &RepoPath,
        lease: Lease,
    ) -> Result<Option<Lease>, NodeError>
        ensures ends { FenceEnds lease repo.now result
            (place_at self.old.replicas.entries)
            (place_at self.new.replicas.entries) }
        ensures known { IfErr result (MayAnswer Fence) }
        ensures cause { NodeHasCause (K.keep_faults self.old.keeper)
            (K.keep_faults self.new.keeper) result }
        ensures fault { IfErr result (λ e. IsNoRefusal e → Stays (place_at self.old.replicas.entries)
            (place_at self.new.replicas.entries)
            (K.rows self.old.keeper) (K.rows self.new.keeper)) }
        ensures idle { lease ≤ (place_at self.old.replicas.entries repo.now).fence
            → IfErr result IsNotFault × (self.new.keeper ≡ self.old.keeper) }
    {
        let replica = find(&self.replicas, repo, &self.unheard);
        let held = replica.holds();
        let last = replica.last();
        self.raise(alloc, repo, lease)?;
        if !held {
            return Err(NodeError::Refused(NodeRefusal::NoRepo));
        }
        Ok(last)
    }

    fn refs(&mut self, alloc: Global, repo: &RepoPath) -> Result<RefList, NodeError>
        ensures ends { ReadEnds HasRefs repo.now result
            (place_at self.old.replicas.entries)
            (place_at self.new.replicas.entries) }
        ensures known { IfErr result (MayAnswer Read) }
        ensures sure { IfErr result IsNotFault }
        ensures cause { NodeHasCause (K.keep_faults self.old.keeper)
            (K.keep_faults self.new.keeper) result }
        ensures same { Stays (place_at self.old.replicas.entries)
            (place_at self.new.replicas.entries)
            (K.rows self.old.keeper) (K.rows self.new.keeper) }
        ensures keeper { self.new.keeper ≡ self.old.keeper }
    {
        find(&self.replicas, repo, &self.unheard).refs(alloc)
    }

    fn object(
        &mut self,
        alloc: Global,
        repo: &RepoPath,
        id: &ObjectId,
    ) -> Result<Option<Object>, NodeError>
        ensures ends { ReadEnds (HasObject id.now) repo.now result
            (place_at self.old.replicas.entries)
            (place_at self.new.replicas.entries) }
        ensures known { IfErr result (MayAnswer Read) }
        ensures sure { IfErr result IsNotFault }
        ensures cause { NodeHasCause (K.keep_faults self.old.keeper)
            (K.keep_faults self.new.keeper) result }
        ensures same { Stays (place_at self.old.replicas.entries)
            (place_at self.new.replicas.entries)
            (K.rows self.old.keeper) (K.rows self.new.keeper) }
        ensures keeper { self.new.keeper ≡ self.old.keeper }
    {
        find(&self.replicas, repo, &self.unheard).object(alloc, id)
    }

    fn snapshot(&mut self, alloc: Global, repo: &RepoPath) -> Result<Snapshot, NodeError>
        ensures ends { ReadEnds IsSnapshot repo.now result
            (place_at self.old.replicas.entries)
            (place_at self.new.replicas.entries) }
        ensures known { IfErr result (MayAnswer Read) }
        ensures sure { IfErr result IsNotFault }
        ensures cause { NodeHasCause (K.keep_faults self.old.keeper)
            (K.keep_faults self.new.keeper) result }
        ensures same { Stays (place_at self.old.replicas.entries)
            (place_at self.new.replicas.entries)
            (K.rows self.old.keeper) (K.rows self.new.keeper) }
        ensures keeper { self.new.keeper ≡ self.old.keeper }
    {
        find(&self.replicas, repo, &self.unheard).snapshot(alloc)
    }

    fn apply(
        &mut self,
        alloc: Global,
        repo: &RepoPath,
        lease: Lease,
        snapshot: &Snapshot,
    ) -> Result<(), NodeError>
        ensures ends { Ends (ApplyRefuses lease snapshot.now) (Applies lease snapshot.now)
            repo.now result
            (place_at self.old.replicas.entries)
            (place_at self.new.replicas.entries) }
        ensures known { IfErr result (MayAnswer Apply) }
        ensures cause { NodeHasCause (K.keep_faults self.old.keeper)
            (K.keep_faults self.new.keeper) result }
        ensures err { OnErr result (Stays (place_at self.old.replicas.entries)
            (place_at self.new.replicas.entries)
            (K.rows self.old.keeper) (K.rows self.new.keeper)) }
        ensures refused { IfErr result (λ e. IsRefusal e → self.new.keeper ≡ self.old.keeper) }
    {
        let replica = find(&self.replicas, repo, &self.unheard);
        let (refs, objects) = replica.may_apply(alloc, lease, snapshot)?;
        let batch = replica.rows_applied(alloc, repo, lease, &refs, &objects)?;
        make_room(alloc, &mut self.replicas, repo)?;
        replicas::apply(
            alloc,
            &mut self.replicas,
            &mut self.keeper,
            batch,
            repo,
            lease,
            refs,
            objects,
        )
    }

    fn remove(&mut self, alloc: Global, repo: &RepoPath, lease: Lease) -> Result<(), NodeError>
        ensures ends { Ends (RemoveRefuses lease) (Removes lease) repo.now result
            (place_at self.old.replicas.entries)
            (place_at self.new.replicas.entries) }
        ensures known { IfErr result (MayAnswer Remove) }
        ensures cause { NodeHasCause (K.keep_faults self.old.keeper)
            (K.keep_faults self.new.keeper) result }
        ensures err { OnErr result (Stays (place_at self.old.replicas.entries)
            (place_at self.new.replicas.entries)
            (K.rows self.old.keeper) (K.rows self.new.keeper)) }
        ensures refused { IfErr result (λ e. IsRefusal e → self.new.keeper ≡ self.old.keeper) }
    {
        let replica = find(&self.replicas, repo, &self.unheard);
        replica.admits(lease)?;
        let batch = replica.rows_emptied(alloc, repo, lease, false)?;
        keep_rows(alloc, &mut self.replicas, &mut self.keeper, batch, repo)?;
        replicas::remove(alloc, &mut self.replicas, repo, lease);
        Ok(())
    }

    fn list(&mut self, alloc: Global) -> Result<PathList, NodeError>
        ensures ends { ListEnds result
            (place_at self.old.replicas.entries)
            (place_at self.new.replicas.entries) }
        ensures known { IfErr result (MayAnswer Ask) }
        ensures sure { IfErr result IsNotFault }
        ensures cause { NodeHasCause (K.keep_faults self.old.keeper)
            (K.keep_faults self.new.keeper) result }
        ensures same { Stays (place_at self.old.replicas.entries)
            (place_at self.new.replicas.entries)
            (K.rows self.old.keeper) (K.rows self.new.keeper) }
        ensures keeper { self.new.keeper ≡ self.old.keeper }
    {
        Ok(replicas::held(alloc, &self.replicas)?)
    }

    fn ping(&mut self) -> Result<(), NodeError>
        ensures ok { result ≡ Ok tt }
        ensures cause { NodeHasCause (K.keep_faults self.old.keeper)
            (K.keep_faults self.new.keeper) result }
        ensures same { Stays (place_at self.old.replicas.entries)
            (place_at self.new.replicas.entries)
            (K.rows self.old.keeper) (K.rows self.new.keeper) }
        ensures keeper { self.new.keeper ≡ self.old.keeper }
    {
        Ok(())
    }

    fn faults(&self) -> u64 {
        self.keeper.faults()
    }
}
