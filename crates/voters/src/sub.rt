//! The votes of a panel on one question.

ghost use Rattle.std.specs.Prelude.{◌≡◌, ◌<◌, ◌≤◌, true, false, Some, None, if◌then◌else◌, nat_le, IfOk, IsOk, OnErr, IfSome, length, slice_get, slice_set};
ghost use Rattle.std.specs.Result.{result_ok};
ghost use Rattle.px_base.specs.Hash.{same_hash};
ghost use Rattle.px_base.specs.declared.hash.Hash.{Hash};
ghost use Rattle.voters.specs.Calls.{Call, all_canceled, called};
ghost use Rattle.voters.specs.Marks.{canceling, is_lost, is_open, standing_weight, voting};
ghost use Rattle.voters.specs.Panel.{poll_of};
ghost use Rattle.voters.specs.Refusals.{cast_refusal, cancel_refusal, stop_refusal};
ghost use Rattle.voters.specs.Results.{result_at, result_of, standing_of, undecided_by, undecided_voters};
ghost use Rattle.voters.specs.Votes.{after, decided, or_later, start};
ghost use Rattle.voters.specs.declared.act.Act.{Act};

use crate::count::Count;
use crate::mark::Mark;
use crate::outcome::Outcome;
use crate::panel::Panel;
use crate::verdict::Verdict;
use crate::voter_result::VoterResult;
use px_base::Hash;
use std::alloc::{AllocError, Global};
use std::marker::Model;

/// Why a vote was not counted, in the order in which the causes are tested.
#[derive(Clone, Copy, Debug, PartialEq, Eq)]
pub enum CastRefusal {
    /// The panel has no such voter.
    NotAVoter,
    /// The voter was canceled.
    Canceled,
    /// The subtransaction was stopped.
    Stopped,
    /// The voter voted before, for this hash.
    AlreadyVoted(Hash),
}

/// Why a voter was not canceled, in the order in which the causes are tested.
#[derive(Clone, Copy, Debug, PartialEq, Eq)]
pub enum CancelRefusal {
    /// The panel has no such voter.
    NotAVoter,
    /// The voter was canceled before.
    Canceled,
    /// The subtransaction was stopped.
    Stopped,
    /// The voter's result is committed or failed.
    Decided,
}

/// Why a subtransaction was not stopped.
#[derive(Clone, Copy, Debug, PartialEq, Eq)]
pub enum StopRefusal {
    /// It was stopped before.
    Stopped,
    /// Its outcome is a commit or a fail.
    Decided,
}

/// The votes of a panel on one question: one round of votes of a transaction, which Gitaly calls a
/// subtransaction. A voter is its number in the panel, from 0. Only `new` and `copy` take memory.
#[derive(Drop)]
pub struct Sub {
    count: Count,
    threshold: u64,
    total: u64,
    outcome: Outcome,
}

impl Model for Sub {
    ghost use Rattle.voters.specs.Votes.{Votes};

    ghost Value = { Votes };

    ghost use Rattle.voters.specs.Sub.{IsSub, votes_in};

    ghost view = { votes_in };

    ghost invariant = { IsSub };
}

impl Sub {
    /// No act yet. Takes the room of all votes.
    pub fn new(alloc: Global, panel: &Panel) -> Result<Sub, AllocError>
        ensures { IfOk result (λ sub. sub ≡ start (poll_of panel.now)) }
    {
        let total = panel.total();
        let count = Count::new(alloc, panel.voters())?;
        Ok(Sub {
            count,
            threshold: panel.threshold(),
            total,
            outcome: Outcome::Open,
        })
    }

    /// A copy, which has the room of all votes too.
    pub fn copy(&self, alloc: Global) -> Result<Sub, AllocError>
        ensures { IfOk result (λ sub. sub ≡ self.now) }
    {
        let count = self.count.copy(alloc)?;
        Ok(Sub {
            count,
            threshold: self.threshold,
            total: self.total,
            outcome: self.outcome,
        })
    }

    /// How many voters there are.
    pub fn len(&self) -> u32
        ensures value { result ≡ length self.now.marks }
        ensures few { result ≤ 64 }
    {
        self.count.len() as u32
    }

    /// What it came to so far.
    pub fn outcome(&self) -> Outcome
        ensures value { result ≡ self.now.outcome }
        ensures stands { (hash : Hash) → result ≡ Outcome.Commit hash
            → self.now.threshold ≤ standing_weight hash self.now.marks }
    {
        self.outcome
    }

    /// What it came to so far for a voter, or `None` where the panel has no such voter.
    pub fn result(&self, voter: u32) -> Option<VoterResult>
        ensures { result ≡ result_at self.now voter }
    {
        let mark = self.count.mark(voter as usize)?;
        Some(self.result_of(mark))
    }

    /// Counts a vote and gives its voter's result, also where the outcome is fixed already.
    pub fn cast(&mut self, voter: u32, hash: &Hash) -> Result<VoterResult, CastRefusal>
        // The vote is counted, and the result is what stands for the voter then.
        ensures ok { cast_refusal self.old voter ≡ None
            → self.new ≡ after self.old (Act.Cast voter hash.now) }
        ensures value { cast_refusal self.old voter ≡ None
            → result_ok result ≡ result_at self.new voter }

        // Each refusal comes exactly where its cause is the first that holds.
        ensures made { cast_refusal self.old voter ≡ None → IsOk result }
        ensures refused { IfSome (cast_refusal self.old voter) (λ e. result ≡ Err e) }
        ensures err { OnErr result (self.new ≡ self.old) }

        // Refused or not, this is the call that the laws speak of.
        ensures call { self.new ≡ called self.old (Call.Cast voter hash.now) }
    {
        let Some(mark) = self.count.mark(voter as usize) else {
            return Err(CastRefusal::NotAVoter);
        };
        if mark.canceled {
            return Err(CastRefusal::Canceled);
        }
        if matches!(self.outcome, Outcome::Stop) {
            return Err(CastRefusal::Stopped);
        }
        if let Some(earlier) = mark.vote {
            return Err(CastRefusal::AlreadyVoted(earlier));
        }
        self.record_cast(voter, mark, hash);
        Ok(self.result_of(Mark {
            weight: mark.weight,
            vote: Some(*hash),
            canceled: mark.canceled,
        }))
    }

    /// Cancels an undecided voter: its vote stands no more, and it can cast none.
    pub fn cancel(&mut self, voter: u32) -> Result<(), CancelRefusal>
        ensures ok { cancel_refusal self.old voter ≡ None
            → self.new ≡ after self.old (Act.Cancel voter) }
        ensures made { cancel_refusal self.old voter ≡ None → IsOk result }
        ensures refused { IfSome (cancel_refusal self.old voter) (λ e. result ≡ Err e) }
        ensures err { OnErr result (self.new ≡ self.old) }
        ensures call { self.new ≡ called self.old (Call.Cancel voter) }
    {
        let Some(mark) = self.count.mark(voter as usize) else {
            return Err(CancelRefusal::NotAVoter);
        };
        match self.result_of(mark) {
            VoterResult::Canceled => Err(CancelRefusal::Canceled),
            VoterResult::Stopped => Err(CancelRefusal::Stopped),
            VoterResult::Committed(_) | VoterResult::Failed => Err(CancelRefusal::Decided),
            VoterResult::Open => {
                self.record_cancel(voter, mark);
                Ok(())
            }
        }
    }

    /// Cancels each voter that is undecided when the call begins, in the order of the panel, and
    /// answers how many there are. One that an earlier of these cancels makes failed is canceled
    /// too.
    pub fn cancel_all(&mut self) -> u32
        ensures ok { self.new ≡ all_canceled self.old }
        ensures value { result ≡ length (undecided_voters self.old) }
    {
        let before = self.outcome();
        let mut canceled = 0;
        for voter in 0..self.len() {
            let mark = self.mark_at(voter);
            if is_still_undecided(before, mark) {
                self.record_cancel(voter, mark);
                canceled += 1;
            }
        }
        canceled
    }

    /// Stops an open subtransaction: it decides nothing any more, and takes no votes.
    pub fn stop(&mut self) -> Result<(), StopRefusal>
        ensures ok { stop_refusal self.old ≡ None → self.new ≡ after self.old Act.Stop }
        ensures made { stop_refusal self.old ≡ None → IsOk result }
        ensures refused { IfSome (stop_refusal self.old) (λ e. result ≡ Err e) }
        ensures err { OnErr result (self.new ≡ self.old) }
        ensures call { self.new ≡ called self.old Call.Stop }
    {
        match self.outcome {
            Outcome::Stop => Err(StopRefusal::Stopped),
            Outcome::Commit(_) | Outcome::Fail => Err(StopRefusal::Decided),
            Outcome::Open => {
                self.outcome = Outcome::Stop;
                Ok(())
            }
        }
    }

    fn mark_at(&self, voter: u32) -> Mark
        requires { voter < length self.now.marks }
        ensures { slice_get self.now.marks voter ≡ Some result }
    {
        self.count.mark_at(voter as usize)
    }

    // The result of a voter with that mark.
    fn result_of(&self, mark: Mark) -> VoterResult
        ensures { result ≡ result_of self.now mark }
    {
        if mark.canceled {
            return VoterResult::Canceled;
        }
        match self.outcome {
            Outcome::Stop => VoterResult::Stopped,
            Outcome::Open => VoterResult::Open,
            Outcome::Fail => match mark.vote {
                Some(_) => VoterResult::Failed,
                None => VoterResult::Open,
            },
            Outcome::Commit(hash) => match mark.vote {
                Some(own) => self.judged(hash, own),
                None => VoterResult::Open,
            },
        }
    }

    // What the commit of a hash means for a vote.
    fn judged(&self, hash: Hash, own: Hash) -> VoterResult
        requires { self.now.outcome ≡ Outcome.Commit hash }
        ensures { result ≡ (if same_hash hash own
            then VoterResult.Committed (standing_of self.now own) else VoterResult.Failed) }
    {
        if hash == own {
            VoterResult::Committed(Verdict::new(
                own,
                self.count.standing(&own),
                self.threshold,
                self.total,
            ))
        } else {
            VoterResult::Failed
        }
    }

    // A cast by an open voter.
    fn record_cast(&mut self, voter: u32, mark: Mark, hash: &Hash)
        requires there { slice_get self.old.marks voter ≡ Some mark }
        requires is_open { is_open mark ≡ true }
        ensures act { self.new ≡ after self.old (Act.Cast voter hash.now) }
        ensures there { slice_get self.new.marks voter ≡ Some (voting mark hash.now) }
    {
        self.count.vote(voter as usize, mark, hash);
        self.outcome = first_of(self.outcome, after_cast(&self.count, self.threshold, hash));
    }

    // A cancel, which takes no vote from a hash that is committed.
    fn record_cancel(&mut self, voter: u32, mark: Mark)
        requires there { slice_get self.old.marks voter ≡ Some mark }
        requires not_canceled { mark.canceled ≡ false }
        requires no_vote { (hash : Hash) → self.old.outcome ≡ Outcome.Commit hash
            → mark.vote ≡ None }
        ensures act { self.new ≡ after self.old (Act.Cancel voter) }
        ensures marks { self.new.marks ≡ slice_set self.old.marks voter (canceling mark) }
        ensures commit { (hash : Hash) → self.new.outcome ≡ Outcome.Commit hash
            → self.old.outcome ≡ Outcome.Commit hash }
    {
        self.count.cancel(voter as usize, mark);
        self.outcome = first_of(self.outcome, after_cancel(&self.count, self.threshold));
    }
}

// What is decided after a cast for the hash, if nothing was before.
fn after_cast(count: &Count, threshold: u64, hash: &Hash) -> Outcome
    ensures { result ≡ decided
        (if nat_le threshold (standing_weight hash.now count.now) then Some hash.now else None)
        (is_lost threshold count.now) false }
{
    if count.standing(hash) >= threshold {
        Outcome::Commit(*hash)
    } else if count.is_lost(threshold) {
        Outcome::Fail
    } else {
        Outcome::Open
    }
}

// What is decided after a cancel, if nothing was before.
fn after_cancel(count: &Count, threshold: u64) -> Outcome
    ensures { result ≡ decided None (is_lost threshold count.now) false }
{
    if count.is_lost(threshold) {
        Outcome::Fail
    } else {
        Outcome::Open
    }
}

fn first_of(outcome: Outcome, later: Outcome) -> Outcome
    ensures { result ≡ or_later outcome later }
{
    match outcome {
        Outcome::Open => later,
        decided => decided,
    }
}

// Whether a voter with that mark was undecided under an earlier outcome.
fn is_still_undecided(outcome: Outcome, mark: Mark) -> bool
    ensures { result ≡ undecided_by outcome mark }
{
    !mark.canceled
        && match outcome {
            Outcome::Open => true,
            Outcome::Commit(_) | Outcome::Fail => mark.vote.is_none(),
            Outcome::Stop => false,
        }
}
