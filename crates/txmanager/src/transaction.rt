//! One transaction: who votes, by name, and its subtransactions.

ghost use Rattle.std.specs.Prelude.{◌≡◌, ◌≤◌, IfOk, OnOk};
ghost use Rattle.std.specs.Option.{option_copied};
ghost use Rattle.txmanager.specs.Rounds.{opened};
ghost use Rattle.txmanager.specs.VoterCalls.{after_cancel_voter, after_cast, cancel_voter_answer, cast_answer};
ghost use Rattle.txmanager.specs.Voting.{after_cancel, after_stop, collect_answer, number_of, outcome_answer, stop_answer, sub_at, voting_on};
ghost use Rattle.voters.specs.Panel.{IsPanel};

use crate::refusal::TxRefusal;
use crate::subs::{any_open, cancel_everywhere, cancel_in, cast_in, copied, stop_in};
use px_base::{Hash, Phase, StorageName, Voter};
use std::alloc::{AllocError, Global};
use std::marker::Model;
use voters::{Outcome, Panel, Sub, VoterResult};

/// Who votes, and the subtransactions of 1 to 8 rounds, two of a round. Only `new` and `copy` take
/// memory.
#[derive(Drop)]
pub struct Transaction {
    voters: Vec<Voter>,
    subs: Vec<Sub>,
}

impl Model for Transaction {
    ghost use Rattle.txmanager.specs.Voting.{Voting};

    ghost Value = { Voting };

    ghost use Rattle.txmanager.specs.Chain.{IsTransaction};

    ghost view = { λ t. record { voters = t.voters.items; subs = t.subs.items } };

    ghost invariant = { λ t. IsTransaction t.voters.items t.subs.items };
}

impl Transaction {
    /// A transaction without any act. Takes the room of all its votes.
    pub fn new(alloc: Global, panel: &Panel, rounds: u32) -> Result<Transaction, AllocError>
        requires { rounds ≤ 8 }
        ensures value { IfOk result (λ transaction. transaction ≡ voting_on panel.now rounds) }
        ensures panel { OnOk result (IsPanel panel.now.voters panel.now.threshold) }
    {
        let voters = Vec::from_slice(alloc, panel.voters())?;
        let mut subs = Vec::with_capacity(alloc, 2 * rounds as usize)?;
        for _ in 0..2 * rounds {
            let sub = Sub::new(alloc, panel)?;
            subs.push(sub)?;
        }
        Ok(Transaction { voters, subs })
    }

    /// A copy, which has the room of all votes too. An act on it leaves this one as it is.
    pub fn copy(&self, alloc: Global) -> Result<Transaction, AllocError>
        ensures { IfOk result (λ transaction. transaction ≡ self.now) }
    {
        let voters = Vec::from_slice(alloc, &self.voters)?;
        let subs = copied(alloc, &self.subs)?;
        Ok(Transaction { voters, subs })
    }

    /// The number of the voter of a name, from 0 in the order of the panel, where there is one.
    pub fn number_of(&self, name: &StorageName) -> Option<u32>
        ensures { result ≡ number_of name.now self.now }
    {
        for (at, voter) in self.voters.iter().enumerate() {
            if voter.name.as_bytes() == name.as_bytes() {
                return Some(at as u32);
            }
        }
        None
    }

    /// The subtransaction of a number, counted from 1, where there is one.
    pub fn sub_at(&self, number: u32) -> Option<&Sub>
        ensures { option_copied result ≡ sub_at number self.now }
    {
        if number == 0 {
            return None;
        }
        self.subs.get((number - 1) as usize)
    }

    /// Counts a vote in the voter's current subtransaction, the first in which it is not committed,
    /// and answers its number, from 1, and the result of the voter there. Refused are `NotAVoter`,
    /// `Finished`, `WrongPhase`, and what the subtransaction refuses.
    pub fn cast(
        &mut self,
        name: &StorageName,
        phase: Phase,
        hash: &Hash,
    ) -> Result<(u32, VoterResult), TxRefusal>
        ensures answer { result ≡ cast_answer name.now phase hash.now self.old }
        ensures state { self.new ≡ after_cast name.now phase hash.now self.old }
    {
        let Some(voter) = self.number_of(name) else {
            return Err(TxRefusal::NotAVoter(*name));
        };
        cast_in(&mut self.subs, name, voter, phase, hash)
    }

    /// Cancels a voter in its current subtransaction. Refused are `NotAVoter`, `Finished`, and what
    /// the subtransaction refuses.
    pub fn cancel_voter(&mut self, name: &StorageName) -> Result<(), TxRefusal>
        ensures answer { result ≡ cancel_voter_answer name.now self.old }
        ensures state { self.new ≡ after_cancel_voter name.now self.old }
    {
        let Some(voter) = self.number_of(name) else {
            return Err(TxRefusal::NotAVoter(*name));
        };
        cancel_in(&mut self.subs, name, voter)
    }

    /// Cancels, in each subtransaction, each voter that is undecided there as the call begins.
    pub fn cancel(&mut self)
        ensures { self.new ≡ after_cancel self.old }
    {
        cancel_everywhere(&mut self.subs);
    }

    /// Stops each open subtransaction. Refused with `Decided` where none is open.
    pub fn stop(&mut self) -> Result<(), TxRefusal>
        ensures answer { result ≡ stop_answer self.old }
        ensures state { self.new ≡ after_stop self.old }
    {
        if !any_open(&self.subs) {
            return Err(TxRefusal::Decided);
        }
        stop_in(&mut self.subs);
        Ok(())
    }

    /// The result of a voter in a subtransaction. Refused are `NotAVoter`, and then `NoSub`.
    pub fn collect(&self, name: &StorageName, number: u32) -> Result<VoterResult, TxRefusal>
        ensures { result ≡ collect_answer name.now number self.now }
    {
        let Some(voter) = self.number_of(name) else {
            return Err(TxRefusal::NotAVoter(*name));
        };
        let Some(sub) = self.sub_at(number) else {
            return Err(TxRefusal::NoSub(number));
        };
        match sub.result(voter) {
            Some(counted) => Ok(counted),
            None => Err(TxRefusal::NotAVoter(*name)),
        }
    }

    /// The outcome of a subtransaction. Refused is `NoSub`.
    pub fn outcome(&self, number: u32) -> Result<Outcome, TxRefusal>
        ensures { result ≡ outcome_answer number self.now }
    {
        match self.sub_at(number) {
            Some(sub) => Ok(sub.outcome()),
            None => Err(TxRefusal::NoSub(number)),
        }
    }
}
