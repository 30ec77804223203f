//! Fences: what is drawn and issued for one, and what its node answers to it.

ghost use Rattle.std.specs.Prelude.{◌≡◌, ◌<◌, length, Some};
ghost use Rattle.px_ops.specs.declared.op.Op.TheVariants as operation;
ghost use Rattle.px_cluster.specs.Events as cluster;
ghost use Rattle.px_cluster.specs.Ops.{refusal_of};
ghost use Rattle.px_core.specs.Repairs.{IsNextLease};
ghost use Rattle.px_world.specs.Asked.{DrawsFence};
ghost use Rattle.px_world.specs.Tries.{Happens};

use crate::answers::{refused, refused_by};
use crate::effects::is_fence;
use crate::{Answer, Op, Refusal, World};
use px_base::{Lease, RepoId, StorageId};
use std::alloc::{AllocError, Global};

impl World {
    /// Draws a lease to accept what a storage has, and issues the fence under it.
    pub(crate) fn accept_begin_at(
        &mut self,
        alloc: Global,
        op: &Op,
        repo: RepoId,
        storage: StorageId,
    ) -> Result<Answer, AllocError>
        requires { op.now ≡ operation.AcceptBegin repo storage }
        ensures { Happens self.old (cluster.Asks op.now) result self.new }
    {
        let Some(lease) = self.core.lease_to_accept(repo, storage) else {
            return self.ask_refused(alloc, op);
        };
        self.draw_fence(alloc, op, repo, storage, lease)
    }

    /// Draws a lease to settle a replica in doubt, and issues the fence under it.
    pub(crate) fn settle_begin_at(
        &mut self,
        alloc: Global,
        op: &Op,
        repo: RepoId,
        storage: StorageId,
    ) -> Result<Answer, AllocError>
        requires { op.now ≡ operation.SettleBegin repo storage }
        ensures { Happens self.old (cluster.Asks op.now) result self.new }
    {
        let Some(lease) = self.core.lease_to_settle(repo, storage) else {
            return self.ask_refused(alloc, op);
        };
        self.draw_fence(alloc, op, repo, storage, lease)
    }

    // Draws the next lease of a repository, and issues a fence under it. Room for that is taken
    // first.
    fn draw_fence(
        &mut self,
        alloc: Global,
        op: &Op,
        repo: RepoId,
        storage: StorageId,
        lease: Lease,
    ) -> Result<Answer, AllocError>
        requires draws { DrawsFence op.now repo storage }
        requires next { IsNextLease self.old.core repo.0 (refusal_of self.old.core op.now)
            (Some lease) }
        ensures { Happens self.old (cluster.Asks op.now) result self.new }
    {
        self.issued.reserve(repo, &[storage], lease)?;
        let reply = self.core.step(alloc, op)?;
        self.issued.fences(repo, storage, lease);
        Ok(Answer::Replied(reply))
    }

    /// Delivers a fence. A node without the repository refuses it, and is fenced all the same.
    pub(crate) fn fence_at(
        &mut self,
        alloc: Global,
        storage: StorageId,
        repo: RepoId,
        lease: Lease,
    ) -> Result<Answer, AllocError>
        requires { storage.0 < length self.old.core.storages }
        ensures { Happens self.old (cluster.Fence storage.0 repo.0 lease) result self.new }
    {
        if !is_fence(&self.issued, repo, storage, lease) {
            return Ok(refused(Refusal::NotOut));
        }
        let Some(path) = self.core.path_on(repo, storage) else {
            return Ok(refused(Refusal::NotOut));
        };
        match self.nodes.fence(alloc, storage.0 as usize, path, lease) {
            Ok(ref last) => {
                self.issued.answers_fence(repo, storage, lease, *last);
                Ok(Answer::Last(*last))
            }
            Err(fault) => refused_by(fault),
        }
    }
}
