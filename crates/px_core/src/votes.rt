//! The operations on transactions and their votes.

ghost use Rattle.std.specs.Prelude.{◌≡◌, Ok, Err, IfOk, OnOk, OnErr};
ghost use Rattle.px_ops.specs.declared.op.Op.TheVariants as op;
ghost use Rattle.px_cluster.specs.Ops.{collected, counted, next_core, outcome_told, reply_of, told};
ghost use Rattle.px_cluster.specs.Refusals.{refusal_in};
ghost use Rattle.px_core.specs.Answers.{done};

use crate::Core;
use crate::refusal::{of_transaction, refused_panel};
use px_base::{StorageName, TxId, Voter};
use px_ops::{Refusal, Reply};
use std::alloc::{AllocError, Global};
use txmanager::{TxRefusal, are_lawful_rounds};
use voters::{Outcome, Panel, VoterResult};

impl Core {
    /// Opens a transaction. Refused are, in this order, what `Panel::new` refuses, `BadRounds` and
    /// `TransactionsSpent`.
    pub(crate) fn open(
        &mut self,
        alloc: Global,
        threshold: u64,
        rounds: u32,
        voters: &[Voter],
    ) -> Result<Reply, AllocError>
        ensures reply { IfOk result
            (λ reply. reply ≡ reply_of self.old (op.Open threshold rounds voters.now)) }
        ensures state { OnOk result
            (self.new ≡ next_core self.old (op.Open threshold rounds voters.now)) }
        ensures err { OnErr result (self.new ≡ self.old) }
    {
        let panel = match Panel::new(alloc, voters, threshold) {
            Ok(panel) => panel,
            Err(refusal) => return refused_panel(refusal),
        };
        if !are_lawful_rounds(rounds) {
            return Ok(Reply::Refused(Refusal::BadRounds(rounds)));
        }
        if self.last == u64::MAX {
            return Ok(Reply::Refused(Refusal::TransactionsSpent));
        }
        let next = TxId(self.last + 1);
        match self.votes.register(alloc, next, &panel, rounds) {
            Ok(()) => {
                self.last += 1;
                Ok(Reply::Opened(next))
            }
            Err(_) => Err(AllocError),
        }
    }

    /// Cancels a voter. Refused is what the transaction refuses.
    pub(crate) fn withdraw(&mut self, tx: TxId, voter: &StorageName) -> Reply
        ensures reply { result ≡ reply_of self.old (op.Withdraw tx voter.now) }
        ensures state { self.new ≡ next_core self.old (op.Withdraw tx voter.now) }
    {
        told_done(self.votes.cancel_voter(tx, voter))
    }

    /// Cancels, in each subtransaction, each voter that is undecided there, and marks a push as
    /// canceled. Refused is `UnknownTx`.
    pub(crate) fn cancel(&mut self, tx: TxId) -> Reply
        ensures reply { result ≡ reply_of self.old (op.Cancel tx) }
        ensures state { self.new ≡ next_core self.old (op.Cancel tx) }
    {
        match self.votes.cancel(tx) {
            Ok(()) => {
                self.turns.cancel(tx);
                Reply::Done
            }
            Err(refusal) => Reply::Refused(of_transaction(refusal)),
        }
    }

    /// Stops each open subtransaction, and marks a push as stopped. Refused are `UnknownTx` and
    /// `Decided`.
    pub(crate) fn stop(&mut self, tx: TxId) -> Reply
        ensures reply { result ≡ reply_of self.old (op.Stop tx) }
        ensures state { self.new ≡ next_core self.old (op.Stop tx) }
    {
        match self.votes.stop(tx) {
            Ok(()) => {
                self.turns.stop(tx);
                Reply::Done
            }
            Err(refusal) => Reply::Refused(of_transaction(refusal)),
        }
    }

    /// Takes a transaction away that is no push. Refused are `UnknownTx` and `IsPush`.
    pub(crate) fn close(&mut self, tx: TxId) -> Reply
        ensures reply { result ≡ reply_of self.old (op.Close tx) }
        ensures state { self.new ≡ next_core self.old (op.Close tx) }
    {
        if self.turns.push(tx).is_some() {
            return Reply::Refused(Refusal::IsPush);
        }
        told_done(self.votes.close(tx))
    }

    /// The result of a voter. Refused are `UnknownTx`, `NotAVoter` and `NoSub`.
    pub(crate) fn collect(&self, tx: TxId, voter: &StorageName, sub: u32) -> Reply
        ensures { result ≡ reply_of self.now (op.Collect tx voter.now sub) }
    {
        match self.votes.collect(tx, voter, sub) {
            Ok(result) => Reply::Counted { sub, result },
            Err(refusal) => Reply::Refused(of_transaction(refusal)),
        }
    }

    /// The outcome of a subtransaction. Refused are `UnknownTx` and `NoSub`.
    pub(crate) fn outcome(&self, tx: TxId, sub: u32) -> Reply
        ensures { result ≡ reply_of self.now (op.Outcome tx sub) }
    {
        match self.votes.outcome(tx, sub) {
            Ok(outcome) => Reply::OutcomeIs(outcome),
            Err(refusal) => Reply::Refused(of_transaction(refusal)),
        }
    }
}

// That it was done, or why not.
fn told_done(answer: Result<(), TxRefusal>) -> Reply
    ensures { result ≡ done answer }
{
    match answer {
        Ok(()) => Reply::Done,
        Err(refusal) => Reply::Refused(of_transaction(refusal)),
    }
}
