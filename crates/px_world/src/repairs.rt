//! What is accepted and settled, where the node of the storage answered the fence.

ghost use Rattle.std.specs.Prelude.{◌≡◌, ℕ, Option};
ghost use Rattle.px_ops.specs.declared.op.Op.TheVariants as operation;
ghost use Rattle.px_cluster.specs.Acknowledged.{is_answer};
ghost use Rattle.px_cluster.specs.Events as cluster;
ghost use Rattle.px_cluster.specs.Ledger.{fence_answer};
ghost use Rattle.px_cluster.specs.Ops.{refusal_of};
ghost use Rattle.issued.specs.Draws.{ledger_of};
ghost use Rattle.px_world.specs.Asked.{not_acked};
ghost use Rattle.px_world.specs.Tries.{Happens};

use crate::answers::refused;
use crate::{Answer, Op, Refusal, World};
use px_base::{Lease, RepoId, StorageId};
use std::alloc::{AllocError, Global};

impl World {
    /// Accepts what a storage has as the newest generation, where its node answered the fence under
    /// this lease.
    pub(crate) fn accept_at(
        &mut self,
        alloc: Global,
        op: &Op,
        repo: RepoId,
        storage: StorageId,
        lease: Lease,
    ) -> Result<Answer, AllocError>
        requires { op.now ≡ operation.Accept repo storage lease }
        ensures { Happens self.old (cluster.Asks op.now) result self.new }
    {
        if self.issued.fence_answer(repo, storage, lease).is_none() {
            return Ok(self.not_accepted(repo, storage, lease));
        }
        let reply = self.core.step(alloc, op)?;
        Ok(Answer::Replied(reply))
    }

    // What is answered where the node did not answer the fence: what refuses the operation comes
    // first.
    fn not_accepted(&self, repo: RepoId, storage: StorageId, lease: Lease) -> Answer
        ensures { result ≡ not_acked
            (refusal_of self.now.core (operation.Accept repo storage lease)) }
    {
        match self.core.may_accept(repo, storage, lease) {
            Ok(()) => refused(Refusal::NotAcked),
            Err(why) => refused(why),
        }
    }

    /// Settles a replica in doubt with what its node answered to the fence under this lease.
    pub(crate) fn settle_as_answered(
        &mut self,
        alloc: Global,
        repo: RepoId,
        storage: StorageId,
        lease: Lease,
    ) -> Result<Answer, AllocError>
        ensures { Happens self.old (cluster.Settled repo.0 storage.0 lease) result self.new }
    {
        let last = self.issued.fence_answer(repo, storage, lease).flatten();
        self.ask(
            alloc,
            &Op::Settle {
                repo,
                storage,
                lease,
                last,
            },
        )
    }

    /// Settles a replica in doubt, where its node answered the fence under this lease with this
    /// last lease.
    pub(crate) fn settle_at(
        &mut self,
        alloc: Global,
        op: &Op,
        repo: RepoId,
        storage: StorageId,
        lease: Lease,
        last: Option<Lease>,
    ) -> Result<Answer, AllocError>
        requires { op.now ≡ operation.Settle repo storage lease last }
        ensures { Happens self.old (cluster.Asks op.now) result self.new }
    {
        if !self.has_answered(repo, storage, lease, last) {
            return Ok(self.not_settled(repo, storage, lease));
        }
        let reply = self.core.step(alloc, op)?;
        Ok(Answer::Replied(reply))
    }

    // Whether the node of a storage answered the fence under this lease with this last lease.
    fn has_answered(
        &self,
        repo: RepoId,
        storage: StorageId,
        lease: Lease,
        last: Option<Lease>,
    ) -> bool
        ensures { result ≡ is_answer last
            (fence_answer (ledger_of self.now.issued.draws repo.0 storage.0 lease)) }
    {
        match self.issued.fence_answer(repo, storage, lease) {
            Some(answer) => answer == last,
            None => false,
        }
    }

    // What is answered where the node did not answer the fence so: what refuses the operation comes
    // first, whatever it would be settled with.
    fn not_settled(&self, repo: RepoId, storage: StorageId, lease: Lease) -> Answer
        ensures { (last : Option ℕ) → result ≡ not_acked
            (refusal_of self.now.core (operation.Settle repo storage lease last)) }
    {
        match self.core.may_settle(repo, storage, lease) {
            Ok(()) => refused(Refusal::NotAcked),
            Err(why) => refused(why),
        }
    }
}
