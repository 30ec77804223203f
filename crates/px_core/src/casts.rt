//! A vote, with what it books where it is one on a push.

ghost use Rattle.std.specs.Prelude.{◌≡◌, None, Some, IfErr, IfOk, IsSome};
ghost use Rattle.px_ops.specs.declared.op.Op.TheVariants as op;
ghost use Rattle.txmanager.specs.VoterCalls.{cast_answer};
ghost use Rattle.px_cluster.specs.Core.{push_of};
ghost use Rattle.px_cluster.specs.Ops.{refusal_of, refused_at};
ghost use Rattle.px_core.specs.Counting.{IsCounted};
ghost use Rattle.px_core.specs.Steps.{IsCause, Steps};

use crate::Core;
use crate::bookings::book_cast;
use crate::fault::Fault;
use crate::refusal::of_transaction;
use genbook::Repository;
use px_base::{Hash, Phase, StorageName, TxId};
use px_ops::{Refusal, Reply};
use std::alloc::{AllocError, Global};
use turns::OpenPush;
use txmanager::Transaction;
use voters::VoterResult;

/// A vote on a push that is counted: in which subtransaction and with which result, the transaction
/// then, and what the book then has of the repository.
#[derive(Drop)]
pub(crate) struct Counting {
    pub(crate) sub: u32,
    pub(crate) result: VoterResult,
    pub(crate) then: Transaction,
    pub(crate) entry: Repository,
}

impl Core {
    /// Counts a vote. One on a push is counted in a copy of its transaction and booked in a copy of
    /// what the book has of its repository, which then take their places. Refused is what the
    /// transaction refuses.
    pub(crate) fn cast(
        &mut self,
        alloc: Global,
        tx: TxId,
        voter: &StorageName,
        phase: Phase,
        hash: &Hash,
    ) -> Result<Reply, Fault>
        ensures { Steps self.old (op.Cast tx voter.now phase hash.now) result self.new }
    {
        let Some(push) = self.turns.push(tx) else {
            return self.cast_alone(tx, voter, phase, hash);
        };
        let repo = push.repo();
        let Counting {
            sub,
            result,
            then,
            entry,
        } = match self.plan_cast(alloc, push, voter, phase, hash) {
            Ok(plan) => plan,
            Err(fault) => return Err(fault),
        };
        self.votes.put(tx, then);
        self.book.put(repo, entry);
        Ok(Reply::Counted { sub, result })
    }

    /// Why a vote on an open push would be refused now, if it would. Nothing changes by it.
    pub fn cast_refusal(
        &self,
        alloc: Global,
        tx: TxId,
        voter: &StorageName,
        phase: Phase,
        hash: &Hash,
    ) -> Result<Option<Refusal>, AllocError>
        requires { IsSome (push_of self.now tx) }
        ensures { IfOk result
            (λ why. why ≡ refusal_of self.now (op.Cast tx voter.now phase hash.now)) }
    {
        let Some(push) = self.turns.push(tx) else {
            unreachable!();
        };
        match self.plan_cast(alloc, push, voter, phase, hash) {
            Ok(_) => Ok(None),
            Err(Fault::Refused(refusal)) => Ok(Some(refusal)),
            Err(Fault::Memory) => Err(AllocError),
        }
    }

    // Counts a vote on a transaction that is no push.
    fn cast_alone(
        &mut self,
        tx: TxId,
        voter: &StorageName,
        phase: Phase,
        hash: &Hash,
    ) -> Result<Reply, Fault>
        requires { push_of self.old tx ≡ None }
        ensures { Steps self.old (op.Cast tx voter.now phase hash.now) result self.new }
    {
        match self.votes.cast(tx, voter, phase, hash) {
            Ok((sub, result)) => Ok(Reply::Counted { sub, result }),
            Err(refusal) => Err(Fault::Refused(of_transaction(refusal))),
        }
    }

    // Counts a vote on a push in copies.
    fn plan_cast(
        &self,
        alloc: Global,
        push: &OpenPush,
        voter: &StorageName,
        phase: Phase,
        hash: &Hash,
    ) -> Result<Counting, Fault>
        requires { push_of self.now push.now.tx ≡ Some push.now }
        ensures ok { IfOk result (IsCounted self.now push.now voter.now phase hash.now) }
        ensures refused { IfErr result (IsCause
            (refused_at self.now push.now.tx (cast_answer voter.now phase hash.now))) }
    {
        let Some(before) = self.votes.get(push.tx()) else {
            return Err(Fault::Refused(Refusal::UnknownTx(push.tx())));
        };
        let Some(known) = self.book.repository(push.repo()) else {
            unreachable!();
        };
        let mut then = before.copy(alloc)?;
        match then.cast(voter, phase, hash) {
            Ok((sub, result)) => {
                let mut entry = known.copy(alloc)?;
                book_cast(alloc, &mut entry, push, voter, phase, hash, before, &then)?;
                Ok(Counting {
                    sub,
                    result,
                    then,
                    entry,
                })
            }
            Err(refusal) => Err(Fault::Refused(of_transaction(refusal))),
        }
    }
}
