//! What a node has of one repository, and what each call does to it.

ghost use Rattle.std.specs.Prelude.{◌≡◌, ◌<◌, Err, ◌+◌, ◌≤◌, [], IfOk, IfErr, OnOk, OnErr, IsSome, IfSome, None, Some, true, false};
ghost use Rattle.node_calls.specs.Calls.{aborted, abort_refusal, apply_refusal, commit_refusal, created, create_refusal, fenced, new_tips, not_held, prepared, ready_under, removed, with_coming};
ghost use Rattle.node_calls.specs.Refusals.{of_bundle};
ghost use Rattle.node_replica.specs.Checks.{IsNoRefusal, Reads, Tests};
ghost use Rattle.node_calls.specs.Reads.{HasObject, HasRefs, IsSnapshot};
ghost use Rattle.node_calls.specs.Lawful.{IsLawfulReplica};
ghost use Rattle.node_calls.specs.ReplicaState.{ReplicaState, nothing, raised};
ghost use Rattle.node_replica.specs.Hashes.{NameHashes};
ghost use Rattle.px_base.specs.Hash.{IsHash};
ghost use Rattle.node_rows.specs.Reading.{said, with_one, with_ref};
ghost use Rattle.node_replica.specs.Told.{IsNew, MayHaveObject, MayHaveRef};
ghost use Rattle.node_replica.specs.Kept.{Keeps};
ghost use Rattle.node_rows.specs.Writes.{applied_rows, committed_rows, emptied_rows, fenced_rows};
ghost use Rattle.objstore.specs.Entries.{object_in};
ghost use Rattle.objstore.specs.Reach.{IsClosed};
ghost use Rattle.node_replica.specs.Effects.{DoesReady, IsNotApplied, MayBeDone, taken_over};
ghost use Rattle.node_calls.specs.Ends.{NodeHasCause};
ghost use Rattle.std.specs.Map.{values_of};
ghost use Rattle.px_base.specs.RefList.{IsRefList};
ghost use Rattle.px_base.specs.RepoPath.{IsRepoPath};
ghost use Rattle.objstore.specs.Bundle.{bundle_fault, with_object};
ghost use Rattle.node_replica.specs.Prepared.{IsMissing, IsNotPrepared, IsPrepared, IsReadyAt, push_in};

use crate::copies::{copied_updates, named_by, tips_of};
use crate::kept::{keep_push, keep_with};
use crate::refused::{objects_refused, updates_refused};
use node_calls::{NodeError, NodeRefusal, Snapshot};
use node_rows::{ReplicaRow, add_objects, add_push, add_refs, begun, remove_objects};
use objstore::{ClosedFault, Put, PutFault, Quarantine, Store};
use px_base::{Hash, Lease, Object, ObjectId, Push, RefList, RefName, RepoPath, Update, Updates};
use px_keeper::{Batch, Keeper, NotTaken};
use refstore::{RefRefusal, Refs, vote_of};
use std::alloc::{AllocError, Global};
use std::marker::Model;

/// A push that is ready to be done.
#[derive(Drop)]
pub struct Ready {
    /// The lease that it came under.
    pub lease: Lease,
    /// What is to be changed.
    pub updates: Updates,
    /// The objects that came with it.
    pub objects: Quarantine,
    /// The vote on the updates.
    pub vote: Hash,
}

/// What a node has of one repository.
#[derive(Drop)]
pub struct Replica {
    held: bool,
    refs: Refs,
    objects: Store,
    fence: u64,
    last: Option<Lease>,
    ready: Option<Ready>,
}

impl Model for Replica {
    ghost use Rattle.node_calls.specs.ReplicaState.{ReplicaState};
    ghost use Rattle.node_replica.specs.Hashes.{NameHashes};
    ghost use Rattle.node_replica.specs.Replica.{AreReady, IsEmptyUnless, push_of};

    ghost Value = { ReplicaState };

    ghost view = { λ r. record {
      held = r.held;
      refs = r.refs;
      objects = r.objects;
      fence = r.fence;
      last = r.last;
      ready = push_of r.ready;
    } };

    ghost invariant = { λ r. AreReady r.refs r.objects r.fence r.ready
        × IsEmptyUnless r.held r.refs r.objects r.ready × NameHashes r.refs };
}

impl Replica {
    /// Nothing. It takes no memory yet.
    pub fn new(alloc: Global) -> Replica
        ensures { result ≡ nothing }
    {
        Replica {
            held: false,
            refs: Refs::new(alloc),
            objects: Store::new(alloc),
            fence: 0,
            last: None,
            ready: None,
        }
    }

    /// What a row tells of a repository, with no references and no objects yet.
    pub fn told(alloc: Global, row: ReplicaRow) -> Replica
        ensures { result ≡ said row.fence row.last row.held }
    {
        Replica {
            held: row.held,
            refs: Refs::new(alloc),
            objects: Store::new(alloc),
            fence: row.fence,
            last: row.last,
            ready: None,
        }
    }

    /// Takes over a reference that a row tells. It is a bad row where the repository is not held, or
    /// where `Refs::create` refuses the reference.
    pub fn take_ref(&mut self, alloc: Global, name: RefName, id: ObjectId) -> Result<(), NotTaken>
        requires unready { self.old.ready ≡ None }
        requires hash { IsHash id }
        ensures ok { OnOk result (self.new ≡ with_ref name id self.old) }
        ensures accepted { OnOk result (MayHaveRef self.old name id) }
        ensures bad { result ≡ Err NotTaken.BadRow → ¬ (MayHaveRef self.old name id) }
    {
        if !self.held {
            return Err(NotTaken::BadRow);
        }
        match self.refs.create(alloc, name, id) {
            Ok(()) => Ok(()),
            Err(RefRefusal::Memory) => Err(NotTaken::Memory),
            Err(_) => Err(NotTaken::BadRow),
        }
    }

    /// Takes over an object that a row tells under an id. It is a bad row where the repository is not
    /// held, and where the object has another name, breaks the form of its kind or is there already.
    pub fn take_object(
        &mut self,
        alloc: Global,
        id: &ObjectId,
        object: &Object,
    ) -> Result<(), NotTaken>
        requires unready { self.old.ready ≡ None }
        ensures ok { OnOk result (self.new ≡ with_one object.now self.old) }
        ensures accepted { OnOk result (MayHaveObject self.old id.now object.now) }
        ensures bad { result ≡ Err NotTaken.BadRow
            → ¬ (MayHaveObject self.old id.now object.now) }
    {
        if !self.held || objstore::name_of(object.kind(), object.content()) != *id {
            return Err(NotTaken::BadRow);
        }
        put_new(alloc, &mut self.objects, object)
    }

    /// Tells the proof what its types keep.
    pub fn is_lawful(&self)
        ensures { IsLawfulReplica self.now }
    {
        let _refs = self.refs.len();
        let _objects = self.objects.len();
        let _fence = self.fence;
        if let Some(lease) = self.last {
            let _last = lease.number();
        }
    }

    /// Whether the lease is not below the fence; `Fenced` where it is.
    pub fn admits(&self, lease: Lease) -> Result<(), NodeError>
        ensures { Tests (fenced lease self.now) result }
    {
        if lease.number() < self.fence {
            let fence = self.fence;
            return Err(NodeError::Refused(NodeRefusal::Fenced { fence }));
        }
        Ok(())
    }

    /// Whether it is held; `NoRepo` where it is not.
    pub fn is_held(&self) -> Result<(), NodeError>
        ensures { Tests (not_held self.now) result }
    {
        if !self.held {
            return Err(NodeError::Refused(NodeRefusal::NoRepo));
        }
        Ok(())
    }

    /// Whether it may be created; `Fenced` where the lease is below the fence, else `RepoExists` where
    /// it is held with references.
    pub fn may_create(&self, lease: Lease) -> Result<(), NodeError>
        ensures { Tests (create_refusal lease self.now) result }
    {
        self.admits(lease)?;
        if self.held && !self.refs.is_empty() {
            return Err(NodeError::Refused(NodeRefusal::RepoExists));
        }
        Ok(())
    }

    /// Whether its ready push may be dropped; `Fenced` where the lease is below the fence, else
    /// `NoRepo` where it is not held.
    pub fn may_abort(&self, lease: Lease) -> Result<(), NodeError>
        ensures { Tests (abort_refusal lease self.now) result }
    {
        self.admits(lease)?;
        self.is_held()
    }

    /// The push, ready to be done.
    ///
    /// Refused, as `Node::prepare` is, with the first that holds: `Fenced`; `NoRepo`; `BadObject` or
    /// `Collision` for an object of the push; a refusal of its updates; `Missing`, for the first object
    /// that what they give to names leads to, and that is neither here nor in the push. `Memory`, where
    /// memory wants.
    pub fn prepared(&self, alloc: Global, lease: Lease, push: &Push) -> Result<Ready, NodeError>
        ensures ok { IfOk result (IsPrepared lease push.now self.now) }
        ensures err { IfErr result (IsNotPrepared lease push.now self.now) }
    {
        self.admits(lease)?;
        self.is_held()?;
        let objects = self.quarantined(alloc, push.objects.as_slice())?;
        if let Err(refusal) = self.refs.check(alloc, push.updates.as_slice()) {
            return Err(updates_refused(refusal));
        }
        self.has_new(alloc, push.updates.as_slice(), objects.store())?;
        let vote = vote_of(push.updates.as_slice());
        let updates = copied_updates(alloc, push.updates.as_slice())?;
        Ok(Ready {
            lease,
            updates,
            objects,
            vote,
        })
    }

    // The objects in quarantine, where they may come here.
    fn quarantined(&self, alloc: Global, objects: &[Object]) -> Result<Quarantine, NodeError>
        ensures ok { IfOk result (λ kept. kept ≡ objects.now) }
        ensures refusal { Tests (of_bundle (bundle_fault self.now.objects 0 objects.now)) result }
        ensures accepted { OnOk result (bundle_fault self.now.objects 0 objects.now ≡ None) }
    {
        match Quarantine::of(alloc, &self.objects, objects) {
            Ok(kept) => Ok(kept),
            Err(fault) => Err(objects_refused(fault)),
        }
    }

    // Whether all that is reachable from the tips is here or among these objects.
    fn has_all(&self, alloc: Global, tips: &[ObjectId], extra: &Store) -> Result<(), NodeError>
        ensures ok { OnOk result (IsClosed (object_in self.now.objects extra.now) tips.now) }
        ensures err { IfErr result
            (IsMissing (object_in self.now.objects extra.now) tips.now) }
    {
        match self.objects.closed(alloc, tips, extra) {
            Ok(()) => Ok(()),
            Err(ClosedFault::Missing(id)) => Err(NodeError::Refused(NodeRefusal::Missing { id })),
            Err(ClosedFault::Memory) => Err(NodeError::Memory),
        }
    }

    // Whether all that is reachable from what the updates give to names is here or among these objects.
    fn has_new(&self, alloc: Global, updates: &[Update], extra: &Store) -> Result<(), NodeError>
        ensures ok { OnOk result
            (IsClosed (object_in self.now.objects extra.now) (new_tips updates.now)) }
        ensures err { IfErr result
            (IsMissing (object_in self.now.objects extra.now) (new_tips updates.now)) }
    {
        let tips = tips_of(alloc, updates)?;
        self.has_all(alloc, tips.as_slice(), extra)
    }

    /// Makes a push ready, and drops any other one.
    pub fn prepare(&mut self, ready: Ready)
        requires { IsReadyAt ready self.old }
        ensures { self.new ≡ prepared ready.lease (push_in ready) self.old }
    {
        self.fence = ready.lease.number();
        self.ready = Some(ready);
    }

    /// Holds it, with no references and no objects.
    pub fn create(&mut self, alloc: Global, lease: Lease)
        requires { self.old.fence ≤ lease }
        ensures { self.new ≡ created lease self.old }
    {
        self.ready = None;
        self.held = true;
        self.refs = Refs::new(alloc);
        self.objects = Store::new(alloc);
        self.fence = lease.number() + 1;
    }

    /// Holds it no longer.
    pub fn remove(&mut self, alloc: Global, lease: Lease)
        requires { self.old.fence ≤ lease }
        ensures { self.new ≡ removed lease self.old }
    {
        self.ready = None;
        self.held = false;
        self.refs = Refs::new(alloc);
        self.objects = Store::new(alloc);
        self.fence = lease.number() + 1;
    }

    /// Drops its ready push.
    pub fn abort(&mut self, lease: Lease)
        requires { self.old.fence ≤ lease }
        ensures { self.new ≡ aborted lease self.old }
    {
        self.ready = None;
        self.fence = lease.number() + 1;
    }

    /// Raises its fence to the number, where that is above it.
    pub fn raise(&mut self, to: Lease)
        ensures { self.new ≡ raised to self.old }
    {
        if to.number() > self.fence {
            self.fence = to.number();
            self.ready = None;
        }
    }

    /// Whether its ready push may be done.
    ///
    /// Refused with the first that holds: `Fenced`; `NoRepo`; `NotPrepared`, where no push of this lease
    /// is ready; `VoteDiffers`, where that push has another vote than the hash.
    pub fn may_commit(&self, lease: Lease, hash: &Hash) -> Result<(), NodeError>
        ensures { Tests (commit_refusal lease hash.now self.now) result }
    {
        self.admits(lease)?;
        self.is_held()?;
        let have = match &self.ready {
            Some(ready) if ready.lease == lease => ready.vote,
            _ => return Err(NodeError::Refused(NodeRefusal::NotPrepared)),
        };
        if have != *hash {
            return Err(NodeError::Refused(NodeRefusal::VoteDiffers { have }));
        }
        Ok(())
    }

    /// Does its ready push, once the keeper has kept the rows that this changes. After `Fault`, which
    /// comes where the keeper's count rose, and after `Memory` nothing has changed.
    pub fn commit<K: Keeper>(
        &mut self,
        alloc: Global,
        keeper: &mut K,
        batch: Batch,
        lease: Lease,
    ) -> Result<Hash, NodeError>
        requires above { self.old.fence ≤ lease }
        requires held { self.old.held ≡ true }
        requires ready { IsSome (ready_under lease self.old.ready) }
        ensures ok { IfOk result (DoesReady lease self.old self.new) }
        ensures kept { OnOk result (Keeps batch (K.rows keeper.old) (K.rows keeper.new)) }
        ensures err { OnErr result (self.new ≡ self.old) }
        ensures err_rows { OnErr result (K.rows keeper.new ≡ K.rows keeper.old) }
        ensures known { IfErr result IsNoRefusal }
        ensures cause { NodeHasCause (K.keep_faults keeper.old) (K.keep_faults keeper.new) result }
    {
        let Some(mut ready) = self.ready.take() else {
            // A push is ready, as the caller knows.
            return Err(NodeError::Memory);
        };
        let updates = ready.updates.as_slice();
        let coming = &mut ready.objects;
        let refs = &mut self.refs;
        let store = &mut self.objects;
        if let Err(error) = keep_push(alloc, keeper, batch, refs, store, updates, coming) {
            self.ready = Some(ready);
            return Err(error);
        }
        let vote = ready.vote;
        self.last = Some(lease);
        self.fence = lease.number() + 1;
        Ok(vote)
    }

    /// The references of a snapshot, and its objects in quarantine, where it may be applied.
    ///
    /// Refused with the first that holds: `Fenced`; `BadObject` or `Collision`, for an object of the
    /// snapshot; `Missing`, for the first object that its references lead to, and that neither has.
    /// `Memory`, where memory wants.
    pub fn may_apply(
        &self,
        alloc: Global,
        lease: Lease,
        snapshot: &Snapshot,
    ) -> Result<(Refs, Quarantine), NodeError>
        ensures ok { IfOk result (λ taken. taken.0 ≡ snapshot.now.refs) }
        ensures objects { IfOk result (λ taken. taken.1 ≡ snapshot.now.objects) }
        ensures accepted { OnOk result (apply_refusal lease snapshot.now self.now ≡ None) }
        ensures comes { OnOk result
            (bundle_fault self.now.objects 0 snapshot.now.objects ≡ None) }
        ensures list { OnOk result (IsRefList snapshot.now.refs) }
        ensures ids { OnOk result (NameHashes snapshot.now.refs) }
        ensures closed { OnOk result (IsClosed (with_coming self.now snapshot.now.objects)
            (values_of snapshot.now.refs)) }
        ensures err { IfErr result (IsNotApplied lease snapshot.now self.now) }
    {
        self.admits(lease)?;
        let objects = self.quarantined(alloc, snapshot.objects.as_slice())?;
        let tips = named_by(alloc, snapshot.refs.as_slice())?;
        self.has_all(alloc, tips.as_slice(), objects.store())?;
        let refs = Refs::of_list(alloc, &snapshot.refs)?;
        Ok((refs, objects))
    }

    /// Takes the references and the objects of a snapshot, once the keeper has kept the rows that this
    /// changes. After `Fault`, which comes where the keeper's count rose, and after `Memory` nothing has
    /// changed.
    pub fn apply<K: Keeper>(
        &mut self,
        alloc: Global,
        keeper: &mut K,
        batch: Batch,
        lease: Lease,
        refs: Refs,
        mut objects: Quarantine,
    ) -> Result<(), NodeError>
        requires above { self.old.fence ≤ lease }
        requires comes { bundle_fault self.old.objects 0 objects ≡ None }
        requires ids { NameHashes refs }
        ensures ok { OnOk result (self.new ≡ taken_over lease refs objects self.old) }
        ensures kept { OnOk result (Keeps batch (K.rows keeper.old) (K.rows keeper.new)) }
        ensures err { OnErr result (self.new ≡ self.old) }
        ensures err_rows { OnErr result (K.rows keeper.new ≡ K.rows keeper.old) }
        ensures known { IfErr result IsNoRefusal }
        ensures cause { NodeHasCause (K.keep_faults keeper.old) (K.keep_faults keeper.new) result }
    {
        let ready = self.ready.take();
        if let Err(error) = keep_with(alloc, keeper, batch, &mut self.objects, &mut objects) {
            self.ready = ready;
            return Err(error);
        }
        self.held = true;
        self.refs = refs;
        self.fence = lease.number() + 1;
        Ok(())
    }

    /// Its references; `NoRepo` where it is not held, `Memory` where memory wants.
    pub fn refs(&self, alloc: Global) -> Result<RefList, NodeError>
        ensures { Reads HasRefs self.now result }
    {
        self.is_held()?;
        Ok(self.refs.list(alloc)?)
    }

    /// A copy of its object of that id, if there is one; `NoRepo` where it is not held, `Memory` where
    /// memory wants.
    pub fn object(&self, alloc: Global, id: &ObjectId) -> Result<Option<Object>, NodeError>
        ensures { Reads (HasObject id.now) self.now result }
    {
        self.is_held()?;
        match self.objects.get(id) {
            Some(object) => Ok(Some(object.copy(alloc)?)),
            None => Ok(None),
        }
    }

    /// Its references, and the objects that the walk from them takes; `NoRepo` where it is not held,
    /// `Memory` where memory wants.
    pub fn snapshot(&self, alloc: Global) -> Result<Snapshot, NodeError>
        ensures { Reads IsSnapshot self.now result }
    {
        self.is_held()?;
        let refs = self.refs.list(alloc)?;
        let tips = named_by(alloc, refs.as_slice())?;
        let objects = self.objects.reached(alloc, tips.as_slice())?;
        Ok(Snapshot { refs, objects })
    }

    /// Whether it is held.
    pub fn holds(&self) -> bool
        ensures { result ≡ self.now.held }
    {
        self.held
    }

    /// The lease of the last push that was done.
    pub fn last(&self) -> Option<Lease>
        ensures { result ≡ self.now.last }
    {
        self.last
    }

    /// Whether its fence is below the lease. Where it is not, to raise it to that changes nothing.
    pub fn is_below(&self, lease: Lease) -> bool
        ensures below { result ≡ true → self.now.fence < lease }
        ensures above { result ≡ false → raised lease self.now ≡ self.now }
    {
        self.fence < lease.number()
    }

    /// The rows that change where it is created or removed under the lease, and is then held or not.
    pub fn rows_emptied(
        &self,
        alloc: Global,
        repo: &RepoPath,
        lease: Lease,
        held: bool,
    ) -> Result<Batch, AllocError>
        ensures batch { IfOk result (λ batch. batch ≡ emptied_rows repo.now lease held self.now) }
        ensures path { OnOk result (IsRepoPath repo.now) }
    {
        let mut batch = begun(alloc, repo, lease.number() + 1, self.last, held)?;
        add_refs(alloc, &mut batch, repo, &self.refs, &Refs::new(alloc))?;
        remove_objects(alloc, &mut batch, repo, &self.objects)?;
        Ok(batch)
    }

    /// The row that changes where its fence comes to be this.
    pub fn rows_fenced(
        &self,
        alloc: Global,
        repo: &RepoPath,
        fence: u64,
    ) -> Result<Batch, AllocError>
        ensures batch { IfOk result (λ batch. batch ≡ fenced_rows repo.now fence self.now) }
        ensures path { OnOk result (IsRepoPath repo.now) }
    {
        begun(alloc, repo, fence, self.last, self.held)
    }

    /// The rows that change where its ready push is done.
    pub fn rows_committed(
        &self,
        alloc: Global,
        repo: &RepoPath,
        lease: Lease,
    ) -> Result<Batch, AllocError>
        ensures rows { IfOk result (λ batch. IfSome self.now.ready
            (λ push. batch ≡ committed_rows repo.now lease push self.now)) }
        ensures ready { OnOk result (IfSome self.now.ready (MayBeDone self.now)) }
        ensures path { OnOk result (IsRepoPath repo.now) }
    {
        let mut batch = begun(alloc, repo, lease.number() + 1, Some(lease), true)?;
        if let Some(ready) = &self.ready {
            let updates = ready.updates.as_slice();
            add_push(
                alloc,
                &mut batch,
                repo,
                &self.objects,
                updates,
                &ready.objects,
            )?;
        }
        Ok(batch)
    }

    /// The rows that change where a snapshot with these references is applied.
    pub fn rows_applied(
        &self,
        alloc: Global,
        repo: &RepoPath,
        lease: Lease,
        refs: &Refs,
        objects: &Quarantine,
    ) -> Result<Batch, AllocError>
        ensures batch { IfOk result
            (λ batch. batch ≡ applied_rows repo.now lease refs.now objects.now self.now) }
        ensures path { OnOk result (IsRepoPath repo.now) }
    {
        let mut batch = begun(alloc, repo, lease.number() + 1, self.last, true)?;
        add_refs(alloc, &mut batch, repo, &self.refs, refs)?;
        add_objects(alloc, &mut batch, repo, &self.objects, objects)?;
        Ok(batch)
    }
}

// Puts an object that the store does not have.
fn put_new(alloc: Global, store: &mut Store, object: &Object) -> Result<(), NotTaken>
    ensures ok { OnOk result (store.new ≡ with_object store.old object.now) }
    ensures accepted { OnOk result (IsNew store.old object.now) }
    ensures bad { result ≡ Err NotTaken.BadRow → ¬ (IsNew store.old object.now) }
{
    let _count = store.len();
    match store.put(alloc, object) {
        Ok(Put::Added) => Ok(()),
        Ok(Put::Present) => Err(NotTaken::BadRow),
        Err(PutFault::BadObject { .. }) => Err(NotTaken::BadRow),
        Err(PutFault::Collision { .. }) => Err(NotTaken::BadRow),
        Err(PutFault::Memory) => Err(NotTaken::Memory),
    }
}
