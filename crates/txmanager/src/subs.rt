//! The subtransactions of a transaction in their order, with the acts on them.

ghost use Rattle.std.specs.Prelude.{◌≡◌, ◌<◌, Some, IfOk, length, map, slice_get};
ghost use Rattle.std.specs.List.{list_any};
ghost use Rattle.txmanager.specs.Chain.{IsChain, IsRounds};
ghost use Rattle.txmanager.specs.Rounds.{TxAct, after_act, current, stopped};
ghost use Rattle.txmanager.specs.VoterCalls.{cancel_answer_by, cancel_in_sub, cast_answer_by, cast_in_sub, of_cancel, of_cast, phase_of, phase_refusal};
ghost use Rattle.txmanager.specs.Voting.{can_stop, unless_err};
ghost use Rattle.voters.specs.Calls.{all_canceled};
ghost use Rattle.voters.specs.Results.{committed_in};
ghost use Rattle.voters.specs.Votes.{Votes, after, changed_at};
ghost use Rattle.voters.specs.declared.act.Act.{Act};

use crate::carry::carry;
use crate::refusal::TxRefusal;
use px_base::{Hash, Phase, StorageName};
use std::alloc::{AllocError, Global};
use voters::{CancelRefusal, CastRefusal, Outcome, Sub, VoterResult};

/// A copy of each.
pub fn copied(alloc: Global, subs: &[Sub]) -> Result<Vec<Sub>, AllocError>
    ensures { IfOk result (λ copies. copies.items ≡ subs.now) }
{
    let mut copies = Vec::with_capacity(alloc, subs.len())?;
    for sub in subs {
        let copy = sub.copy(alloc)?;
        copies.push(copy)?;
    }
    Ok(copies)
}

fn is_committed(sub: &Sub, voter: u32) -> bool
    ensures { result ≡ committed_in voter sub.now }
{
    matches!(sub.result(voter), Some(VoterResult::Committed(_)))
}

fn is_open(sub: &Sub) -> bool
    ensures { result ≡ can_stop sub.now }
{
    matches!(sub.outcome(), Outcome::Open)
}

fn refused_cast(name: &StorageName, refusal: CastRefusal) -> TxRefusal
    ensures { result ≡ of_cast name.now refusal }
{
    match refusal {
        CastRefusal::NotAVoter => TxRefusal::NotAVoter(*name),
        CastRefusal::Canceled => TxRefusal::Canceled,
        CastRefusal::Stopped => TxRefusal::Stopped,
        CastRefusal::AlreadyVoted(hash) => TxRefusal::AlreadyVoted(hash),
    }
}

fn refused_cancel(name: &StorageName, refusal: CancelRefusal) -> TxRefusal
    ensures { result ≡ of_cancel name.now refusal }
{
    match refusal {
        CancelRefusal::NotAVoter => TxRefusal::NotAVoter(*name),
        CancelRefusal::Canceled => TxRefusal::Canceled,
        CancelRefusal::Stopped => TxRefusal::Stopped,
        CancelRefusal::Decided => TxRefusal::Decided,
    }
}

// The phase of the subtransaction in front of which so many stand.
fn due_at(at: usize) -> Phase
    ensures { result ≡ phase_of at }
{
    if at % 2 == 0 {
        Phase::Prepared
    } else {
        Phase::Committed
    }
}

// Whether a vote in that phase is refused where another is due.
fn refused_phase(phase: Phase, due: Phase) -> Option<TxRefusal>
    ensures { result ≡ phase_refusal phase due }
{
    match (phase, due) {
        (Phase::Prepared, Phase::Prepared) | (Phase::Committed, Phase::Committed) => None,
        (Phase::Prepared, Phase::Committed) | (Phase::Committed, Phase::Prepared) => {
            Some(TxRefusal::WrongPhase { due })
        }
    }
}

// How many subtransactions stand in front of the voter's current one.
fn current_of(subs: &[Sub], voter: u32) -> usize
    ensures { result ≡ current voter subs.now }
{
    for (at, sub) in subs.iter().enumerate() {
        if !is_committed(sub, voter) {
            return at;
        }
    }
    subs.len()
}

// A cast in one subtransaction.
fn cast_sub(
    sub: &mut Sub,
    name: &StorageName,
    voter: u32,
    hash: &Hash,
) -> Result<VoterResult, TxRefusal>
    ensures answer { result ≡ cast_in_sub name.now voter hash.now sub.old }
    ensures state { sub.new ≡ unless_err result sub.old (after sub.old (Act.Cast voter hash.now)) }
{
    match sub.cast(voter, hash) {
        Ok(counted) => Ok(counted),
        Err(refusal) => Err(refused_cast(name, refusal)),
    }
}

// The same in the subtransaction at a place.
fn cast_at(
    subs: &mut Vec<Sub>,
    at: usize,
    name: &StorageName,
    voter: u32,
    hash: &Hash,
) -> Result<VoterResult, TxRefusal>
    requires { at < length subs.old.items }
    ensures answer { (votes : Votes) → slice_get subs.old.items at ≡ Some votes
        → result ≡ cast_in_sub name.now voter hash.now votes }
    ensures state { subs.new.items ≡ unless_err result subs.old.items
        (changed_at at (λ votes. after votes (Act.Cast voter hash.now)) subs.old.items) }
{
    let sub = &mut subs[at];
    cast_sub(sub, name, voter, hash)
}

/// A cast by the voter of a number, which goes by a name, in its current subtransaction. Answers
/// the number of that subtransaction, from 1, and the result of the voter there.
pub fn cast_in(
    subs: &mut Vec<Sub>,
    name: &StorageName,
    voter: u32,
    phase: Phase,
    hash: &Hash,
) -> Result<(u32, VoterResult), TxRefusal>
    requires { IsRounds subs.old.items }
    ensures answer { result
        ≡ cast_answer_by name.now phase hash.now subs.old.items (Some voter) }
    ensures state { subs.new.items ≡ unless_err result subs.old.items
        (after_act subs.old.items (TxAct.Cast voter hash.now)) }
{
    let at = current_of(subs, voter);
    if at >= subs.len() {
        return Err(TxRefusal::Finished);
    }
    if let Some(refusal) = refused_phase(phase, due_at(at)) {
        return Err(refusal);
    }
    let counted = cast_at(subs, at, name, voter, hash)?;
    carry(subs);
    Ok((at as u32 + 1, counted))
}

// A cancel in one subtransaction.
fn cancel_sub(sub: &mut Sub, name: &StorageName, voter: u32) -> Result<(), TxRefusal>
    ensures answer { result ≡ cancel_in_sub name.now voter sub.old }
    ensures state { sub.new ≡ unless_err result sub.old (after sub.old (Act.Cancel voter)) }
{
    match sub.cancel(voter) {
        Ok(()) => Ok(()),
        Err(refusal) => Err(refused_cancel(name, refusal)),
    }
}

// The same in the subtransaction at a place.
fn cancel_at(
    subs: &mut Vec<Sub>,
    at: usize,
    name: &StorageName,
    voter: u32,
) -> Result<(), TxRefusal>
    requires { at < length subs.old.items }
    ensures answer { (votes : Votes) → slice_get subs.old.items at ≡ Some votes
        → result ≡ cancel_in_sub name.now voter votes }
    ensures state { subs.new.items ≡ unless_err result subs.old.items
        (changed_at at (λ votes. after votes (Act.Cancel voter)) subs.old.items) }
{
    let sub = &mut subs[at];
    cancel_sub(sub, name, voter)
}

/// A cancel of the voter of a number, which goes by a name, in its current subtransaction.
pub fn cancel_in(subs: &mut Vec<Sub>, name: &StorageName, voter: u32) -> Result<(), TxRefusal>
    requires { IsRounds subs.old.items }
    ensures answer { result ≡ cancel_answer_by name.now subs.old.items (Some voter) }
    ensures state { subs.new.items ≡ unless_err result subs.old.items
        (after_act subs.old.items (TxAct.CancelVoter voter)) }
{
    let at = current_of(subs, voter);
    if at >= subs.len() {
        return Err(TxRefusal::Finished);
    }
    cancel_at(subs, at, name, voter)?;
    carry(subs);
    Ok(())
}

fn stop_open(sub: &mut Sub)
    ensures { sub.new ≡ stopped sub.old }
{
    let _ = sub.stop();
}

fn stop_each(subs: &mut [Sub])
    ensures { subs.new ≡ map stopped subs.old }
{
    for sub in subs.iter_mut() {
        stop_open(sub);
    }
}

fn stop_all(subs: &mut Vec<Sub>)
    ensures { subs.new.items ≡ map stopped subs.old.items }
{
    stop_each(subs);
}

/// Whether a subtransaction is open.
pub fn any_open(subs: &[Sub]) -> bool
    ensures { result ≡ list_any can_stop subs.now }
{
    subs.iter().any(is_open)
}

/// Stops each open subtransaction.
pub fn stop_in(subs: &mut Vec<Sub>)
    requires { IsChain subs.old.items }
    ensures { subs.new.items ≡ after_act subs.old.items TxAct.Stop }
{
    stop_all(subs);
    carry(subs);
}

fn cancel_each(subs: &mut [Sub])
    ensures { subs.new ≡ map all_canceled subs.old }
{
    for sub in subs.iter_mut() {
        sub.cancel_all();
    }
}

fn cancel_all(subs: &mut Vec<Sub>)
    ensures { subs.new.items ≡ map all_canceled subs.old.items }
{
    cancel_each(subs);
}

/// Cancels in each subtransaction each voter that is undecided there.
pub fn cancel_everywhere(subs: &mut Vec<Sub>)
    requires { IsChain subs.old.items }
    ensures { subs.new.items ≡ after_act subs.old.items TxAct.Cancel }
{
    cancel_all(subs);
    carry(subs);
}
