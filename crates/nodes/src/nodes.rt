//! A node in memory for each storage.

ghost use Rattle.std.specs.Prelude.{◌≡◌, ◌<◌, true, OnOk, OnErr};
ghost use Rattle.node_calls.specs.Calls.{AbortRefuses, Aborts, ApplyRefuses, Applies, CommitRefuses, Commits, CreateRefuses, Creates, PrepareRefuses, Prepares, RemoveRefuses, Removes};
ghost use Rattle.node_calls.specs.Reads.{HasRefs, IsSnapshot};
ghost use Rattle.nodes.specs.Calls.{Delivered, Fenced, Reads};
ghost use Rattle.nodes.specs.State.{no_nodes, state_of, with_ready};

use crate::fault::{NodeFault, told};
use px_base::{Hash, Lease, Push, RefList, RepoPath};
use px_keeper::SureKeeper;
use px_node::{Node, Shelf, Snapshot};
use std::alloc::{AllocError, Global};
use std::marker::Model;
use voters::Verdict;

/// A node in memory for each storage, found by the number of the storage, and one more that is
/// ready to be added, if there is one. What the nodes have ends with the process.
///
/// A call at the node of a storage is refused for the causes that `px_node::Node` gives for it.
/// Want of memory leaves all nodes as they were.
#[derive(Drop)]
pub struct Nodes {
    shelves: Vec<Shelf<SureKeeper>>,
    ready: Option<Shelf<SureKeeper>>,
}

impl Model for Nodes {
    ghost use Rattle.std.specs.Prelude.{IfSome, is_some, length, map, vec_capacity};
    ghost use Rattle.nodes.specs.State.{IsReady, KeptNodes};

    ghost Value = { KeptNodes };

    ghost view = { λ n. record {
      nodes = map (λ shelf. shelf.replicas.entries) n.shelves.items;
      ready = is_some n.ready;
    } };

    ghost invariant = { λ n. IfSome n.ready (λ shelf.
        IsReady (length n.shelves.items) (vec_capacity n.shelves) shelf.replicas.entries) };
}

impl Nodes {
    /// No storage has a node yet.
    pub fn new(alloc: Global) -> Nodes
        ensures { state_of result ≡ no_nodes }
    {
        Nodes {
            shelves: Vec::new(alloc),
            ready: None,
        }
    }

    /// Takes all memory that one more node needs, which is ready to be added then. It has nothing.
    pub fn prepare(&mut self, alloc: Global) -> Result<(), AllocError>
        ensures ok { OnOk result (state_of self.new ≡ record (state_of self.old) { ready = true }) }
        ensures err { OnErr result (state_of self.new ≡ state_of self.old) }
    {
        self.shelves.reserve(1)?;
        self.ready = Some(Shelf::new(alloc, SureKeeper::new(alloc)));
        Ok(())
    }

    /// Gives the node that is ready to the next storage. Takes no memory.
    pub fn add(&mut self)
        ensures { state_of self.new ≡ with_ready (state_of self.old) }
    {
        match self.ready.take() {
            Some(shelf) => self.shelves.push_reserved(shelf),
            None => {}
        }
    }

    /// Delivers a creation.
    pub fn make(
        &mut self,
        alloc: Global,
        storage: usize,
        path: &RepoPath,
        lease: Lease,
    ) -> Result<(), NodeFault>
        requires { storage < (state_of self.old).count }
        ensures { Delivered (CreateRefuses lease) (Creates lease) storage path.now
            (state_of self.old) result (state_of self.new) }
    {
        let shelf = &mut self.shelves[storage];
        told(shelf.create(alloc, path, lease))
    }

    /// Delivers a push, which is made ready to be done, and answers its vote.
    pub fn prepare_push(
        &mut self,
        alloc: Global,
        storage: usize,
        path: &RepoPath,
        lease: Lease,
        push: &Push,
    ) -> Result<Hash, NodeFault>
        requires { storage < (state_of self.old).count }
        ensures { Delivered (PrepareRefuses lease push.now) (Prepares lease push.now)
            storage path.now (state_of self.old) result (state_of self.new) }
    {
        let shelf = &mut self.shelves[storage];
        told(shelf.prepare(alloc, path, lease, push))
    }

    /// Delivers the commit of the push that is ready under the lease, and answers its vote.
    pub fn commit(
        &mut self,
        alloc: Global,
        storage: usize,
        path: &RepoPath,
        lease: Lease,
        verdict: &Verdict,
    ) -> Result<Hash, NodeFault>
        requires { storage < (state_of self.old).count }
        ensures { Delivered (CommitRefuses lease verdict.now.hash) (Commits lease verdict.now.hash)
            storage path.now (state_of self.old) result (state_of self.new) }
    {
        let shelf = &mut self.shelves[storage];
        told(shelf.commit(alloc, path, lease, verdict))
    }

    /// Delivers the abort of the push that is ready, if there is one.
    pub fn abort(
        &mut self,
        alloc: Global,
        storage: usize,
        path: &RepoPath,
        lease: Lease,
    ) -> Result<(), NodeFault>
        requires { storage < (state_of self.old).count }
        ensures { Delivered (AbortRefuses lease) (Aborts lease) storage path.now
            (state_of self.old) result (state_of self.new) }
    {
        let shelf = &mut self.shelves[storage];
        told(shelf.abort(alloc, path, lease))
    }

    /// Delivers a fence, which is raised to the lease where it is below, and answers the lease of
    /// the last push that was done. It is raised also where the repository is not held, which is
    /// refused then.
    pub fn fence(
        &mut self,
        alloc: Global,
        storage: usize,
        path: &RepoPath,
        lease: Lease,
    ) -> Result<Option<Lease>, NodeFault>
        requires { storage < (state_of self.old).count }
        ensures { Fenced lease storage path.now (state_of self.old) result (state_of self.new) }
    {
        let shelf = &mut self.shelves[storage];
        told(shelf.fence(alloc, path, lease))
    }

    /// Delivers what a snapshot holds of a repository.
    pub fn apply(
        &mut self,
        alloc: Global,
        storage: usize,
        path: &RepoPath,
        lease: Lease,
        snapshot: &Snapshot,
    ) -> Result<(), NodeFault>
        requires { storage < (state_of self.old).count }
        ensures { Delivered (ApplyRefuses lease snapshot.now) (Applies lease snapshot.now)
            storage path.now (state_of self.old) result (state_of self.new) }
    {
        let shelf = &mut self.shelves[storage];
        told(shelf.apply(alloc, path, lease, snapshot))
    }

    /// Delivers a removal.
    pub fn remove(
        &mut self,
        alloc: Global,
        storage: usize,
        path: &RepoPath,
        lease: Lease,
    ) -> Result<(), NodeFault>
        requires { storage < (state_of self.old).count }
        ensures { Delivered (RemoveRefuses lease) (Removes lease) storage path.now
            (state_of self.old) result (state_of self.new) }
    {
        let shelf = &mut self.shelves[storage];
        told(shelf.remove(alloc, path, lease))
    }

    /// The references of a repository.
    pub fn refs(
        &mut self,
        alloc: Global,
        storage: usize,
        path: &RepoPath,
    ) -> Result<RefList, NodeFault>
        requires { storage < (state_of self.old).count }
        ensures { Reads HasRefs storage path.now (state_of self.old) result (state_of self.new) }
    {
        let shelf = &mut self.shelves[storage];
        told(shelf.refs(alloc, path))
    }

    /// The references of a repository, and the objects that a walk from them takes.
    pub fn snapshot(
        &mut self,
        alloc: Global,
        storage: usize,
        path: &RepoPath,
    ) -> Result<Snapshot, NodeFault>
        requires { storage < (state_of self.old).count }
        ensures { Reads IsSnapshot storage path.now (state_of self.old) result (state_of self.new) }
    {
        let shelf = &mut self.shelves[storage];
        told(shelf.snapshot(alloc, path))
    }
}
