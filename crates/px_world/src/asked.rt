//! Operations: what the core answers, what they issue to nodes, and what they tell of nodes.

ghost use Rattle.std.specs.Prelude.{◌≡◌, IsSome};
ghost use Rattle.px_ops.specs.declared.op.Op.TheVariants as operation;
ghost use Rattle.px_cluster.specs.Events as cluster;
ghost use Rattle.px_cluster.specs.Ops.{refusal_of};
ghost use Rattle.px_world.specs.Asked.{IsAdmission, not_acked};
ghost use Rattle.px_world.specs.Plain.{IsPlain};
ghost use Rattle.px_world.specs.Tries.{Happens};

use crate::answers::refused;
use crate::{Answer, Op, Refusal, Reply, World};
use px_base::{Lease, Phase, RepoId, RepoPath, StorageId, StorageName};
use std::alloc::{AllocError, Global};

impl World {
    /// Asks the core for an operation. Room for what it issues is taken first.
    pub(crate) fn ask(&mut self, alloc: Global, op: &Op) -> Result<Answer, AllocError>
        ensures { Happens self.old (cluster.Asks op.now) result self.new }
    {
        match op {
            Op::Admit { .. } => self.admit(alloc, op),
            Op::Create { virt, path, factor } => self.create(alloc, op, virt, path, *factor),
            Op::Enrol {
                repo,
                storage,
                lease,
            } => self.enrol_at(alloc, op, *repo, *storage, *lease),
            Op::Begin { repo } => self.begin(alloc, op, *repo),
            Op::Cast {
                tx,
                voter,
                phase: Phase::Committed,
                hash,
            } => self.confirm(alloc, op, *tx, voter, hash),
            Op::Collect { tx, voter, sub } => self.collect(alloc, op, *tx, voter, *sub),
            Op::Dequeue { target, now } => self.dequeue(alloc, op, *target, *now),
            Op::Ack {
                job,
                lease,
                good: true,
            } => self.complete(alloc, op, *job, *lease),
            Op::AcceptBegin { repo, storage } => self.accept_begin_at(alloc, op, *repo, *storage),
            Op::SettleBegin { repo, storage } => self.settle_begin_at(alloc, op, *repo, *storage),
            Op::Accept {
                repo,
                storage,
                lease,
            } => self.accept_at(alloc, op, *repo, *storage, *lease),
            Op::Settle {
                repo,
                storage,
                lease,
                last,
            } => self.settle_at(alloc, op, *repo, *storage, *lease, *last),
            _ => self.ask_core(alloc, op),
        }
    }

    // An operation that speaks of no node.
    fn ask_core(&mut self, alloc: Global, op: &Op) -> Result<Answer, AllocError>
        requires { IsPlain op.now }
        ensures { Happens self.old (cluster.Asks op.now) result self.new }
    {
        let reply = self.core.step(alloc, op)?;
        Ok(Answer::Replied(reply))
    }

    // Takes in a storage, and its node.
    fn admit(&mut self, alloc: Global, op: &Op) -> Result<Answer, AllocError>
        requires { IsAdmission op.now }
        ensures { Happens self.old (cluster.Asks op.now) result self.new }
    {
        self.nodes.prepare(alloc)?;
        let reply = self.core.step(alloc, op)?;
        if let Reply::Storage(_) = reply {
            self.nodes.add();
        }
        Ok(Answer::Replied(reply))
    }

    // Creates a repository, and issues a creation for each storage that is assigned.
    fn create(
        &mut self,
        alloc: Global,
        op: &Op,
        virt: &StorageName,
        path: &RepoPath,
        factor: u32,
    ) -> Result<Answer, AllocError>
        requires { op.now ≡ operation.Create virt.now path.now factor }
        ensures { Happens self.old (cluster.Asks op.now) result self.new }
    {
        let Some(creation) = self.core.creation(alloc, virt, path, factor)? else {
            return self.ask_refused(alloc, op);
        };
        let storages = creation.assigned.as_slice();
        self.issued
            .reserve(creation.repo, storages, creation.lease)?;
        let reply = self.core.step(alloc, op)?;
        self.issued.creates(creation.repo, storages, creation.lease);
        Ok(Answer::Replied(reply))
    }

    /// An operation that is refused.
    pub(crate) fn ask_refused(&mut self, alloc: Global, op: &Op) -> Result<Answer, AllocError>
        requires { IsSome (refusal_of self.old.core op.now) }
        ensures { Happens self.old (cluster.Asks op.now) result self.new }
    {
        let reply = self.core.step(alloc, op)?;
        Ok(Answer::Replied(reply))
    }

    /// Books the empty replica that a storage has made, where its node answered that.
    fn enrol_at(
        &mut self,
        alloc: Global,
        op: &Op,
        repo: RepoId,
        storage: StorageId,
        lease: Lease,
    ) -> Result<Answer, AllocError>
        requires { op.now ≡ operation.Enrol repo storage lease }
        ensures { Happens self.old (cluster.Asks op.now) result self.new }
    {
        if !self.issued.is_made(repo, storage, lease) {
            return Ok(self.not_made(repo, storage, lease));
        }
        let reply = self.core.step(alloc, op)?;
        Ok(Answer::Replied(reply))
    }

    // What is answered where the node did not answer that it made the replica: what refuses the
    // operation comes first.
    fn not_made(&self, repo: RepoId, storage: StorageId, lease: Lease) -> Answer
        ensures { result ≡ not_acked
            (refusal_of self.now.core (operation.Enrol repo storage lease)) }
    {
        match self.core.may_enrol(repo, storage, lease) {
            Ok(()) => refused(Refusal::NotAcked),
            Err(why) => refused(why),
        }
    }
}
