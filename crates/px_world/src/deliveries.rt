//! What is delivered to the node of a storage, and what is read there.

ghost use Rattle.std.specs.Prelude.{◌≡◌, ◌<◌, length};
ghost use Rattle.px_cluster.specs.Events as cluster;
ghost use Rattle.px_world.specs.Tries.{Happens};

use crate::answers::{refused, refused_by};
use crate::effects::{is_creation, is_push, verdict_of};
use crate::{Answer, Refusal, World};
use px_base::{Lease, Push, RepoId, StorageId, TxId};
use std::alloc::{AllocError, Global};

impl World {
    /// Delivers a creation.
    pub(crate) fn make_at(
        &mut self,
        alloc: Global,
        storage: StorageId,
        repo: RepoId,
        lease: Lease,
    ) -> Result<Answer, AllocError>
        requires { storage.0 < length self.old.core.storages }
        ensures { Happens self.old (cluster.Make storage.0 repo.0 lease) result self.new }
    {
        if !is_creation(&self.issued, repo, storage, lease) {
            return Ok(refused(Refusal::NotOut));
        }
        let Some(path) = self.core.path_on(repo, storage) else {
            return Ok(refused(Refusal::NotOut));
        };
        match self.nodes.make(alloc, storage.0 as usize, path, lease) {
            Ok(()) => {
                self.issued.answers(repo, storage, lease);
                Ok(Answer::Done)
            }
            Err(fault) => refused_by(fault),
        }
    }

    /// Delivers what is pushed, for the push of a transaction.
    pub(crate) fn prepare_at(
        &mut self,
        alloc: Global,
        tx: TxId,
        storage: StorageId,
        push: &Push,
    ) -> Result<Answer, AllocError>
        requires { storage.0 < length self.old.core.storages }
        ensures { Happens self.old (cluster.Prepare tx storage.0 push.now) result self.new }
    {
        let Some((repo, lease)) = self.issued.push_of(tx) else {
            return Ok(refused(Refusal::NotOut));
        };
        if !is_push(&self.issued, repo, storage, lease) {
            return Ok(refused(Refusal::NotOut));
        }
        let Some(path) = self.core.path_on(repo, storage) else {
            return Ok(refused(Refusal::NotOut));
        };
        match self
            .nodes
            .prepare_push(alloc, storage.0 as usize, path, lease, push)
        {
            Ok(vote) => Ok(Answer::Voted(vote)),
            Err(fault) => refused_by(fault),
        }
    }

    /// Delivers the commit that was issued of the push of a transaction.
    pub(crate) fn commit_at(
        &mut self,
        alloc: Global,
        tx: TxId,
        storage: StorageId,
    ) -> Result<Answer, AllocError>
        requires { storage.0 < length self.old.core.storages }
        ensures { Happens self.old (cluster.Commit tx storage.0) result self.new }
    {
        let Some((repo, lease)) = self.issued.push_of(tx) else {
            return Ok(refused(Refusal::NotOut));
        };
        let Some(verdict) = verdict_of(&self.issued, repo, storage, lease) else {
            return Ok(refused(Refusal::NotOut));
        };
        let Some(path) = self.core.path_on(repo, storage) else {
            return Ok(refused(Refusal::NotOut));
        };
        match self
            .nodes
            .commit(alloc, storage.0 as usize, path, lease, &verdict)
        {
            Ok(vote) => {
                self.issued.answers(repo, storage, lease);
                Ok(Answer::Voted(vote))
            }
            Err(fault) => refused_by(fault),
        }
    }

    /// Delivers an abort of the push of a transaction.
    pub(crate) fn abort_at(
        &mut self,
        alloc: Global,
        tx: TxId,
        storage: StorageId,
    ) -> Result<Answer, AllocError>
        requires { storage.0 < length self.old.core.storages }
        ensures { Happens self.old (cluster.Abort tx storage.0) result self.new }
    {
        let Some((repo, lease)) = self.issued.push_of(tx) else {
            return Ok(refused(Refusal::NotOut));
        };
        if !is_push(&self.issued, repo, storage, lease) {
            return Ok(refused(Refusal::NotOut));
        }
        let Some(path) = self.core.path_on(repo, storage) else {
            return Ok(refused(Refusal::NotOut));
        };
        match self.nodes.abort(alloc, storage.0 as usize, path, lease) {
            Ok(()) => Ok(Answer::Done),
            Err(fault) => refused_by(fault),
        }
    }

    /// Reads the references of a repository.
    pub(crate) fn refs_at(
        &mut self,
        alloc: Global,
        storage: StorageId,
        repo: RepoId,
    ) -> Result<Answer, AllocError>
        requires { storage.0 < length self.old.core.storages }
        ensures { Happens self.old (cluster.Refs storage.0 repo.0) result self.new }
    {
        let Some(path) = self.core.path_on(repo, storage) else {
            return Ok(refused(Refusal::NotOut));
        };
        match self.nodes.refs(alloc, storage.0 as usize, path) {
            Ok(refs) => Ok(Answer::Refs(refs)),
            Err(fault) => refused_by(fault),
        }
    }
}
