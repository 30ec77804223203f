//! Replicas under the paths of their repositories.

ghost use Rattle.std.specs.Prelude.{◌≡◌, ◌≤◌, Some, None, true, IsSome, IfOk, IfErr, OnOk, OnErr};
ghost use Rattle.std.specs.Map.{lookup};
ghost use Rattle.px_base.specs.RefList.{is_name};
ghost use Rattle.objstore.specs.Bundle.{bundle_fault};
ghost use Rattle.node_calls.specs.Calls.{aborted, created, prepared, ready_under, removed};
ghost use Rattle.node_replica.specs.Checks.{IsNoRefusal};
ghost use Rattle.node_replica.specs.Effects.{CommitsAt, taken_over};
ghost use Rattle.node_calls.specs.Ends.{ArePaths, NodeHasCause};
ghost use Rattle.node_calls.specs.ReplicaState.{Changes, Same, nothing, raised};
ghost use Rattle.node_replica.specs.Prepared.{IsReadyAt, push_in};
ghost use Rattle.node_replica.specs.Hashes.{NameHashes};
ghost use Rattle.px_node.specs.Shelf.{AreLawful, Puts, place_at};
ghost use Rattle.node_replica.specs.Kept.{Keeps};

use node_calls::NodeError;
use node_replica::{Ready, Replica, keep};
use objstore::Quarantine;
use px_base::{Hash, Lease, PathList, RepoPath};
use px_keeper::{Batch, Keeper};
use refstore::Refs;
use std::alloc::{AllocError, Global};
use std::collections::BTreeMap;
use std::marker::Model;

/// Replicas by the paths of their repositories.
pub(crate) type Replicas = BTreeMap<RepoPath, Replica>;

/// What a node has of a repository that it never heard of: nothing. It is made once, and lent to each
/// call.
#[derive(Drop)]
pub(crate) struct Unheard {
    replica: Replica,
}

impl Model for Unheard {
    ghost use Rattle.std.specs.Prelude.{◌≡◌};
    ghost use Rattle.node_calls.specs.ReplicaState.{ReplicaState, nothing};

    ghost Value = { ReplicaState };

    ghost view = { λ u. u.replica };

    ghost invariant = { λ u. u.replica ≡ nothing };
}

impl Unheard {
    /// It takes no memory.
    pub(crate) fn new(alloc: Global) -> Unheard {
        Unheard {
            replica: Replica::new(alloc),
        }
    }

    // The replica that has nothing.
    fn replica(&self) -> &Replica
        ensures { result.now ≡ nothing }
    {
        &self.replica
    }
}

/// What is there of a repository, which is nothing where it was never heard of.
pub(crate) fn find<'a>(replicas: &'a Replicas, repo: &RepoPath, unheard: &'a Unheard) -> &'a Replica
    ensures { result.now ≡ place_at replicas.now.entries repo.now }
{
    match replicas.get(repo) {
        Some(replica) => replica,
        None => unheard.replica(),
    }
}

/// Puts a replica under the path of a repository.
pub(crate) fn put(
    replicas: &mut Replicas,
    path: RepoPath,
    replica: Replica,
) -> Result<(), AllocError>
    ensures ok { OnOk result (Puts replicas.old.entries replicas.new.entries path replica) }
    ensures err { OnErr result (replicas.new.entries ≡ replicas.old.entries) }
{
    replicas.insert(path, replica)?;
    Ok(())
}

/// Makes room for a repository.
pub(crate) fn make_room(
    alloc: Global,
    replicas: &mut Replicas,
    repo: &RepoPath,
) -> Result<(), AllocError>
    ensures room { OnOk result (IsSome (lookup (is_name repo.now) replicas.new.entries)) }
    ensures same { Same (place_at replicas.old.entries) (place_at replicas.new.entries) }
    ensures lawful { AreLawful replicas.old.entries → AreLawful replicas.new.entries }
{
    if !replicas.contains_key(repo) {
        let path = repo.copy(alloc)?;
        put(replicas, path, Replica::new(alloc))?;
    }
    Ok(())
}

/// Makes room for a repository, and hands a batch to the keeper.
pub(crate) fn keep_rows<K: Keeper>(
    alloc: Global,
    replicas: &mut Replicas,
    keeper: &mut K,
    batch: Batch,
    repo: &RepoPath,
) -> Result<(), NodeError>
    ensures room { OnOk result (IsSome (lookup (is_name repo.now) replicas.new.entries)) }
    ensures same { Same (place_at replicas.old.entries) (place_at replicas.new.entries) }
    ensures lawful { AreLawful replicas.old.entries → AreLawful replicas.new.entries }
    ensures kept { OnOk result (Keeps batch (K.rows keeper.old) (K.rows keeper.new)) }
    ensures err_rows { OnErr result (K.rows keeper.new ≡ K.rows keeper.old) }
    ensures known { IfErr result IsNoRefusal }
    ensures cause { NodeHasCause (K.keep_faults keeper.old) (K.keep_faults keeper.new) result }
{
    make_room(alloc, replicas, repo)?;
    keep(keeper, batch)
}

/// Creates a repository.
pub(crate) fn create(alloc: Global, replicas: &mut Replicas, repo: &RepoPath, lease: Lease)
    requires room { IsSome (lookup (is_name repo.now) replicas.old.entries) }
    requires above { (place_at replicas.old.entries repo.now).fence ≤ lease }
    ensures changes { Changes (place_at replicas.old.entries) (place_at replicas.new.entries) repo.now
        (created lease (place_at replicas.old.entries repo.now)) }
    ensures lawful { AreLawful replicas.old.entries → AreLawful replicas.new.entries }
{
    if let Some(replica) = replicas.get_mut(repo) {
        replica.create(alloc, lease);
        replica.is_lawful();
    }
}

/// Removes a repository.
pub(crate) fn remove(alloc: Global, replicas: &mut Replicas, repo: &RepoPath, lease: Lease)
    requires room { IsSome (lookup (is_name repo.now) replicas.old.entries) }
    requires above { (place_at replicas.old.entries repo.now).fence ≤ lease }
    ensures changes { Changes (place_at replicas.old.entries) (place_at replicas.new.entries) repo.now
        (removed lease (place_at replicas.old.entries repo.now)) }
    ensures lawful { AreLawful replicas.old.entries → AreLawful replicas.new.entries }
{
    if let Some(replica) = replicas.get_mut(repo) {
        replica.remove(alloc, lease);
        replica.is_lawful();
    }
}

/// Drops the ready push of a repository.
pub(crate) fn abort(replicas: &mut Replicas, repo: &RepoPath, lease: Lease)
    requires room { IsSome (lookup (is_name repo.now) replicas.old.entries) }
    requires above { (place_at replicas.old.entries repo.now).fence ≤ lease }
    ensures changes { Changes (place_at replicas.old.entries) (place_at replicas.new.entries) repo.now
        (aborted lease (place_at replicas.old.entries repo.now)) }
    ensures lawful { AreLawful replicas.old.entries → AreLawful replicas.new.entries }
{
    if let Some(replica) = replicas.get_mut(repo) {
        replica.abort(lease);
        replica.is_lawful();
    }
}

/// Raises the fence of a repository.
pub(crate) fn raise(replicas: &mut Replicas, repo: &RepoPath, lease: Lease)
    requires room { IsSome (lookup (is_name repo.now) replicas.old.entries) }
    ensures changes { Changes (place_at replicas.old.entries) (place_at replicas.new.entries) repo.now
        (raised lease (place_at replicas.old.entries repo.now)) }
    ensures lawful { AreLawful replicas.old.entries → AreLawful replicas.new.entries }
{
    if let Some(replica) = replicas.get_mut(repo) {
        replica.raise(lease);
        replica.is_lawful();
    }
}

/// Makes a push of a repository ready.
pub(crate) fn prepare(replicas: &mut Replicas, repo: &RepoPath, ready: Ready)
    requires room { IsSome (lookup (is_name repo.now) replicas.old.entries) }
    requires ready { IsReadyAt ready (place_at replicas.old.entries repo.now) }
    ensures changes { Changes (place_at replicas.old.entries) (place_at replicas.new.entries) repo.now
        (prepared ready.lease (push_in ready) (place_at replicas.old.entries repo.now)) }
    ensures lawful { AreLawful replicas.old.entries → AreLawful replicas.new.entries }
{
    if let Some(replica) = replicas.get_mut(repo) {
        replica.prepare(ready);
        replica.is_lawful();
    }
}

/// Does the ready push of a repository, once the keeper has kept the rows that this changes.
pub(crate) fn commit<K: Keeper>(
    alloc: Global,
    replicas: &mut Replicas,
    keeper: &mut K,
    batch: Batch,
    repo: &RepoPath,
    lease: Lease,
) -> Result<Hash, NodeError>
    requires above { (place_at replicas.old.entries repo.now).fence ≤ lease }
    requires held { (place_at replicas.old.entries repo.now).held ≡ true }
    requires ready { IsSome (ready_under lease (place_at replicas.old.entries repo.now).ready) }
    ensures ok { IfOk result (CommitsAt lease repo.now
        (place_at replicas.old.entries) (place_at replicas.new.entries)) }
    ensures kept { OnOk result (Keeps batch (K.rows keeper.old) (K.rows keeper.new)) }
    ensures err { OnErr result
        (Same (place_at replicas.old.entries) (place_at replicas.new.entries)) }
    ensures err_rows { OnErr result (K.rows keeper.new ≡ K.rows keeper.old) }
    ensures lawful { AreLawful replicas.old.entries → AreLawful replicas.new.entries }
    ensures known { IfErr result IsNoRefusal }
    ensures cause { NodeHasCause (K.keep_faults keeper.old) (K.keep_faults keeper.new) result }
{
    match replicas.get_mut(repo) {
        Some(replica) => {
            let result = replica.commit(alloc, keeper, batch, lease);
            replica.is_lawful();
            result
        }
        // It is held, as the caller knows.
        None => Err(NodeError::Memory),
    }
}

/// Takes a snapshot of a repository over, once the keeper has kept the rows that this changes.
pub(crate) fn apply<K: Keeper>(
    alloc: Global,
    replicas: &mut Replicas,
    keeper: &mut K,
    batch: Batch,
    repo: &RepoPath,
    lease: Lease,
    refs: Refs,
    objects: Quarantine,
) -> Result<(), NodeError>
    requires room { IsSome (lookup (is_name repo.now) replicas.old.entries) }
    requires above { (place_at replicas.old.entries repo.now).fence ≤ lease }
    requires comes { bundle_fault (place_at replicas.old.entries repo.now).objects 0 objects
        ≡ None }
    requires ids { NameHashes refs }
    ensures ok { OnOk result (Changes (place_at replicas.old.entries)
        (place_at replicas.new.entries) repo.now
        (taken_over lease refs objects (place_at replicas.old.entries repo.now))) }
    ensures kept { OnOk result (Keeps batch (K.rows keeper.old) (K.rows keeper.new)) }
    ensures err { OnErr result
        (Same (place_at replicas.old.entries) (place_at replicas.new.entries)) }
    ensures err_rows { OnErr result (K.rows keeper.new ≡ K.rows keeper.old) }
    ensures lawful { AreLawful replicas.old.entries → AreLawful replicas.new.entries }
    ensures known { IfErr result IsNoRefusal }
    ensures cause { NodeHasCause (K.keep_faults keeper.old) (K.keep_faults keeper.new) result }
{
    match replicas.get_mut(repo) {
        Some(replica) => {
            let result = replica.apply(alloc, keeper, batch, lease, refs, objects);
            replica.is_lawful();
            result
        }
        // There is room for it, as the caller knows.
        None => Err(NodeError::Memory),
    }
}

/// The paths of the repositories that are held.
pub(crate) fn held(alloc: Global, replicas: &Replicas) -> Result<PathList, AllocError>
    ensures { IfOk result (ArePaths (place_at replicas.now.entries)) }
{
    let mut paths = PathList::new(alloc);
    for (path, replica) in replicas {
        if replica.holds() {
            let path = path.copy(alloc)?;
            paths.push(path)?;
        }
    }
    Ok(paths)
}
