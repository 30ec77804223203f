//! The transactions that are open, by their numbers.

ghost use Rattle.std.specs.Prelude.{◌≡◌, [], None, Some, IfSome, IfNone, MatchResult, OnErr, OnOk};
ghost use Rattle.std.specs.Option.{option_copied};
ghost use Rattle.txmanager.specs.Calls.{Call, called};
ghost use Rattle.txmanager.specs.Registry.{answer_at, are_lawful_rounds, rounds_refusal, transaction_at};
ghost use Rattle.txmanager.specs.Registry.{with_changed, with_registered, with_transaction, without_transaction};
ghost use Rattle.txmanager.specs.VoterCalls.{after_cancel_voter, after_cast, cancel_voter_answer, cast_answer};
ghost use Rattle.txmanager.specs.Voting.{after_cancel, after_stop, collect_answer, done, outcome_answer, stop_answer, voting_on};
ghost use Rattle.voters.specs.Panel.{IsPanel};

use crate::key::Key;
use crate::refusal::{RegisterRefusal, TxRefusal};
use crate::transaction::Transaction;
use px_base::{Hash, Phase, StorageName, TxId};
use std::alloc::Global;
use std::collections::BTreeMap;
use std::marker::Model;
use voters::{Outcome, Panel, VoterResult};

/// How many rounds a transaction may have.
const MAX_ROUNDS: u32 = 8;

/// Whether a transaction may have so many rounds: 1 to 8.
pub fn are_lawful_rounds(rounds: u32) -> bool
    ensures { result ≡ are_lawful_rounds rounds }
{
    1 <= rounds && rounds <= MAX_ROUNDS
}

/// The transactions that are registered and not closed. A transaction is found by its number in
/// logarithmic time. Only `register` takes memory; each other call leaves every transaction but the
/// one that it names as it was. A refused call changes nothing. Refused or not, each that can be
/// refused is the call that the laws speak of (`call`). `put` is for what acts on a copy left.
#[derive(Drop)]
pub struct Manager {
    transactions: BTreeMap<Key, Transaction>,
}

impl Model for Manager {
    ghost use Rattle.txmanager.specs.Registry.{Registry};

    ghost Value = { Registry };

    ghost view = { λ m. m.transactions.entries };
}

impl Manager {
    /// No transaction yet. It takes no memory.
    pub fn new(alloc: Global) -> Manager
        ensures { result ≡ [] }
    {
        Manager {
            transactions: BTreeMap::new(alloc),
        }
    }

    /// Registers a transaction of 1 to 8 rounds, two votes of the panel each. All the room that the
    /// transaction will ever need is taken here. A refusal leaves everything as it was.
    pub fn register(
        &mut self,
        alloc: Global,
        tx: TxId,
        panel: &Panel,
        rounds: u32,
    ) -> Result<(), RegisterRefusal>
        requires { transaction_at self.old tx ≡ None }
        ensures refused { IfSome (rounds_refusal rounds)
            (λ e. result ≡ Err e × (self.new ≡ self.old)) }
        ensures made { IfNone (rounds_refusal rounds) (MatchResult result
            (λ _. self.new ≡ with_registered self.old tx (voting_on panel.now rounds))
            (λ e. (e ≡ RegisterRefusal.Memory) × (self.new ≡ self.old))) }

        // This is the call that the laws speak of, and each one registered is of a panel.
        ensures call { OnOk result (self.new ≡ called self.old (Call.Register tx panel.now rounds)) }
        ensures panel { OnOk result (IsPanel panel.now.voters panel.now.threshold) }
    {
        if !are_lawful_rounds(rounds) {
            return Err(RegisterRefusal::BadRounds { n: rounds });
        }
        let Ok(transaction) = Transaction::new(alloc, panel, rounds) else {
            return Err(RegisterRefusal::Memory);
        };
        match self.transactions.insert(Key::of(tx), transaction) {
            Ok(_) => Ok(()),
            Err(_) => Err(RegisterRefusal::Memory),
        }
    }

    /// The transaction of a number, where there is one.
    pub fn get(&self, tx: TxId) -> Option<&Transaction>
        ensures { option_copied result ≡ transaction_at self.now tx }
    {
        self.transactions.get(&Key::of(tx))
    }

    /// Puts a transaction in the place of the one of a number. Where there is none of that number,
    /// nothing changes.
    pub fn put(&mut self, tx: TxId, transaction: Transaction)
        ensures { self.new ≡ with_transaction self.old tx (Some transaction) }
    {
        if let Some(replaced) = self.transactions.get_mut(&Key::of(tx)) {
            *replaced = transaction;
        }
    }

    /// Counts a vote of a voter in its current subtransaction, which is the first one in which it is
    /// not committed. Answers the number of that subtransaction, counted from 1, and the result of
    /// the voter there. Refused, in this order, are `UnknownTx`, `NotAVoter`, `Finished`,
    /// `WrongPhase`, `Canceled`, `Stopped` and `AlreadyVoted`.
    pub fn cast(
        &mut self,
        tx: TxId,
        voter: &StorageName,
        phase: Phase,
        hash: &Hash,
    ) -> Result<(u32, VoterResult), TxRefusal>
        ensures answer { result ≡ answer_at (transaction_at self.old tx) tx
            (cast_answer voter.now phase hash.now) }
        ensures state { self.new
            ≡ with_changed self.old tx (after_cast voter.now phase hash.now) }
        ensures same { OnErr result (self.new ≡ self.old) }
        ensures call { self.new ≡ called self.old (Call.Cast tx voter.now phase hash.now) }
    {
        match self.transactions.get_mut(&Key::of(tx)) {
            Some(transaction) => transaction.cast(voter, phase, hash),
            None => Err(TxRefusal::UnknownTx(tx)),
        }
    }

    /// Cancels a voter in its current subtransaction, and in each later one that is not stopped.
    /// Refused, in this order, are `UnknownTx`, `NotAVoter`, `Finished`, `Canceled`, `Stopped`, and
    /// `Decided` where the voter has failed.
    pub fn cancel_voter(&mut self, tx: TxId, voter: &StorageName) -> Result<(), TxRefusal>
        ensures answer { result ≡ answer_at (transaction_at self.old tx) tx
            (cancel_voter_answer voter.now) }
        ensures state { self.new ≡ with_changed self.old tx (after_cancel_voter voter.now) }
        ensures same { OnErr result (self.new ≡ self.old) }
        ensures call { self.new ≡ called self.old (Call.CancelVoter tx voter.now) }
    {
        match self.transactions.get_mut(&Key::of(tx)) {
            Some(transaction) => transaction.cancel_voter(voter),
            None => Err(TxRefusal::UnknownTx(tx)),
        }
    }

    /// Cancels, in each subtransaction, each voter that is undecided there as the call begins.
    /// Refused is `UnknownTx`.
    pub fn cancel(&mut self, tx: TxId) -> Result<(), TxRefusal>
        ensures answer { result ≡ answer_at (transaction_at self.old tx) tx done }
        ensures state { self.new ≡ with_changed self.old tx after_cancel }
        ensures same { OnErr result (self.new ≡ self.old) }
        ensures call { self.new ≡ called self.old (Call.Cancel tx) }
    {
        match self.transactions.get_mut(&Key::of(tx)) {
            Some(transaction) => {
                transaction.cancel();
                Ok(())
            }
            None => Err(TxRefusal::UnknownTx(tx)),
        }
    }

    /// Stops each open subtransaction. Refused are `UnknownTx`, and `Decided` where none is open.
    pub fn stop(&mut self, tx: TxId) -> Result<(), TxRefusal>
        ensures answer { result ≡ answer_at (transaction_at self.old tx) tx stop_answer }
        ensures state { self.new ≡ with_changed self.old tx after_stop }
        ensures same { OnErr result (self.new ≡ self.old) }
        ensures call { self.new ≡ called self.old (Call.Stop tx) }
    {
        match self.transactions.get_mut(&Key::of(tx)) {
            Some(transaction) => transaction.stop(),
            None => Err(TxRefusal::UnknownTx(tx)),
        }
    }

    /// The result of a voter in a subtransaction, counted from 1. Refused, in this order, are
    /// `UnknownTx`, `NotAVoter` and `NoSub`.
    pub fn collect(&self, tx: TxId, voter: &StorageName, sub: u32) -> Result<VoterResult, TxRefusal>
        ensures { result ≡ answer_at (transaction_at self.now tx) tx
            (collect_answer voter.now sub) }
    {
        match self.transactions.get(&Key::of(tx)) {
            Some(transaction) => transaction.collect(voter, sub),
            None => Err(TxRefusal::UnknownTx(tx)),
        }
    }

    /// The outcome of a subtransaction, counted from 1. Refused are `UnknownTx`, and then `NoSub`.
    pub fn outcome(&self, tx: TxId, sub: u32) -> Result<Outcome, TxRefusal>
        ensures { result ≡ answer_at (transaction_at self.now tx) tx (outcome_answer sub) }
    {
        match self.transactions.get(&Key::of(tx)) {
            Some(transaction) => transaction.outcome(sub),
            None => Err(TxRefusal::UnknownTx(tx)),
        }
    }

    /// Takes a transaction away, whatever became of it. Refused is `UnknownTx`.
    pub fn close(&mut self, tx: TxId) -> Result<(), TxRefusal>
        ensures answer { result ≡ answer_at (transaction_at self.old tx) tx done }
        ensures state { self.new ≡ without_transaction self.old tx }
        ensures same { OnErr result (self.new ≡ self.old) }
        ensures call { self.new ≡ called self.old (Call.Close tx) }
    {
        match self.transactions.remove(&Key::of(tx)) {
            Some(_) => Ok(()),
            None => Err(TxRefusal::UnknownTx(tx)),
        }
    }
}
