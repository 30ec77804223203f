//! Operations on pushes.

ghost use Rattle.std.specs.Prelude.{◌≡◌, IfOk, IsSome};
ghost use Rattle.px_base.specs.declared.phase.Phase.TheVariants.{Committed};
ghost use Rattle.px_ops.specs.declared.op.Op.TheVariants as operation;
ghost use Rattle.px_cluster.specs.Events as cluster;
ghost use Rattle.px_cluster.specs.Core.{push_of};
ghost use Rattle.px_cluster.specs.Ops.{refusal_of};
ghost use Rattle.px_core.specs.Readers.{member_of};
ghost use Rattle.issued.specs.Draws.{ledger_of};
ghost use Rattle.px_world.specs.Asked.{HasRoomFor, begins_in, issues_to, may_confirm, not_acked};
ghost use Rattle.px_world.specs.Tries.{Happens};
ghost use Rattle.px_world.specs.World.{cluster_of};

use crate::answers::refused;
use crate::{Answer, Op, Refusal, Reply, World};
use px_base::{Hash, Phase, RepoId, StorageName, TxId};
use std::alloc::{AllocError, Global};
use voters::{Verdict, VoterResult};

impl World {
    /// Begins a push, and issues a prepare and an abort for each member.
    pub(crate) fn begin(
        &mut self,
        alloc: Global,
        op: &Op,
        repo: RepoId,
    ) -> Result<Answer, AllocError>
        requires { op.now ≡ operation.Begin repo }
        ensures { Happens self.old (cluster.Asks op.now) result self.new }
    {
        let Some(plan) = self.core.plan_begin(alloc, repo)? else {
            return self.ask_refused(alloc, op);
        };
        let push = &plan.push;
        let tx = push.tx();
        self.issued
            .reserve_push(tx, push.repo(), push.members(), push.lease())?;
        let reply = self.core.begin_as(alloc, plan)?;
        self.issue_push(tx);
        Ok(Answer::Replied(reply))
    }

    // Issues the push of a transaction, which has just begun.
    fn issue_push(&mut self, tx: TxId)
        requires { HasRoomFor self.old.issued (push_of self.old.core tx) }
        ensures { cluster_of self.new ≡ begins_in (cluster_of self.old) (push_of self.old.core tx) }
    {
        if let Some(push) = self.core.push(tx) {
            self.issued.begins(
                push.tx(),
                push.repo(),
                push.members(),
                push.lease(),
                push.begun(),
            );
        }
    }

    /// Counts a vote on what is committed, where the node of the voter answered the commit.
    pub(crate) fn confirm(
        &mut self,
        alloc: Global,
        op: &Op,
        tx: TxId,
        voter: &StorageName,
        hash: &Hash,
    ) -> Result<Answer, AllocError>
        requires { op.now ≡ operation.Cast tx voter.now Committed hash.now }
        ensures { Happens self.old (cluster.Asks op.now) result self.new }
    {
        if !self.has_committed(tx, voter) {
            return self.not_committed(alloc, tx, voter, hash);
        }
        let reply = self.core.step(alloc, op)?;
        Ok(Answer::Replied(reply))
    }

    // What is answered where the node of a voter did not answer the commit of an open push: what
    // refuses the operation comes first.
    fn not_committed(
        &self,
        alloc: Global,
        tx: TxId,
        voter: &StorageName,
        hash: &Hash,
    ) -> Result<Answer, AllocError>
        requires { IsSome (push_of self.now.core tx) }
        ensures { IfOk result (λ answer. answer ≡ not_acked
            (refusal_of self.now.core (operation.Cast tx voter.now Committed hash.now))) }
    {
        match self
            .core
            .cast_refusal(alloc, tx, voter, Phase::Committed, hash)?
        {
            Some(why) => Ok(refused(why)),
            None => Ok(refused(Refusal::NotAcked)),
        }
    }

    // Whether the node of a voter answered the commit of the push, or the transaction is none of a push.
    fn has_committed(&self, tx: TxId, voter: &StorageName) -> bool
        ensures { result ≡ may_confirm (ledger_of self.now.issued.draws) (push_of self.now.core tx)
            (member_of self.now.core tx voter.now) }
    {
        let Some(push) = self.core.push(tx) else {
            return true;
        };
        match self.core.member(tx, voter) {
            Some(storage) => self.issued.is_committed(push.repo(), storage, push.lease()),
            None => false,
        }
    }

    /// Tells the result of a voter. Where that is to commit what is prepared, a commit is issued to it.
    pub(crate) fn collect(
        &mut self,
        alloc: Global,
        op: &Op,
        tx: TxId,
        voter: &StorageName,
        sub: u32,
    ) -> Result<Answer, AllocError>
        requires { op.now ≡ operation.Collect tx voter.now sub }
        ensures { Happens self.old (cluster.Asks op.now) result self.new }
    {
        let reply = self.core.step(alloc, op)?;
        if let Reply::Counted {
            sub: 1,
            result: VoterResult::Committed(verdict),
        } = &reply
        {
            self.issue_commit(tx, voter, verdict);
        }
        Ok(Answer::Replied(reply))
    }

    // Issues a commit to the member that a voter is, where the transaction is that of an open push.
    fn issue_commit(&mut self, tx: TxId, voter: &StorageName, verdict: &Verdict)
        ensures { cluster_of self.new ≡ issues_to (cluster_of self.old) (push_of self.old.core tx)
            (member_of self.old.core tx voter.now) verdict.now.hash }
    {
        let Some(push) = self.core.push(tx) else {
            return;
        };
        let Some(storage) = self.core.member(tx, voter) else {
            return;
        };
        self.issued
            .commits(push.repo(), storage, push.lease(), verdict);
    }
}
