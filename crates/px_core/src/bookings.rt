//! What a vote on a push books.

ghost use Rattle.std.specs.Prelude.{◌≡◌, ◌<◌, ◌-◌, ◌^◌, true, Some, slice_get, IfOk, OnOk};
ghost use Rattle.px_cluster.specs.Casts.{booked_by, booked_by_commit, booked_by_outcomes};
ghost use Rattle.px_cluster.specs.Casts.{came_late, is_committed_in, is_told, member_named};
ghost use Rattle.px_cluster.specs.Ids.{storage_number};
ghost use Rattle.px_cluster.specs.Numbers.{place_in};
ghost use Rattle.px_cluster.specs.Pushes.{committed_outcome, is_open, prepared_outcome};
ghost use Rattle.genbook.specs.Changes.{numbers_of};
ghost use Rattle.genbook.specs.Rules.{AreTold};

use genbook::Repository;
use px_base::{Hash, Phase, StorageId, StorageName};
use std::alloc::{AllocError, Global};
use turns::OpenPush;
use txmanager::Transaction;
use voters::{Outcome, VoterResult};

/// The outcome of the votes on what is prepared.
pub(crate) fn prepared_outcome(votes: &Transaction) -> Outcome
    ensures { result ≡ prepared_outcome votes.now }
{
    match votes.sub_at(1) {
        Some(sub) => sub.outcome(),
        None => Outcome::Open,
    }
}

/// The outcome of the votes on what is committed.
pub(crate) fn committed_outcome(votes: &Transaction) -> Outcome
    ensures { result ≡ committed_outcome votes.now }
{
    match votes.sub_at(2) {
        Some(sub) => sub.outcome(),
        None => Outcome::Open,
    }
}

/// Books what a vote books, by the transaction before it and after it.
pub(crate) fn book_cast(
    alloc: Global,
    entry: &mut Repository,
    push: &OpenPush,
    voter: &StorageName,
    phase: Phase,
    hash: &Hash,
    before: &Transaction,
    now: &Transaction,
) -> Result<(), AllocError>
    requires left { is_open (prepared_outcome before.now) ≡ true → entry.old.newest < 2 ^ 64 - 1 }
    ensures { OnOk result (entry.new
        ≡ booked_by push.now voter.now phase hash.now before.now now.now entry.old) }
{
    let storage = member_named(push, before, voter);
    let was = prepared_outcome(before);
    match phase {
        Phase::Prepared => book_vote(alloc, entry, push, storage, was, now),
        Phase::Committed => {
            book_commit(entry, push, storage, hash, was);
            Ok(())
        }
    }
}

// Books a vote on what is prepared: it decides, or comes after the decision, or nothing is decided.
fn book_vote(
    alloc: Global,
    entry: &mut Repository,
    push: &OpenPush,
    storage: Option<StorageId>,
    was: Outcome,
    now: &Transaction,
) -> Result<(), AllocError>
    requires left { is_open was ≡ true → entry.old.newest < 2 ^ 64 - 1 }
    ensures { OnOk result (entry.new ≡ booked_by_outcomes push.now now.now (storage_number storage)
        was (prepared_outcome now.now) entry.old) }
{
    match (was, prepared_outcome(now)) {
        (Outcome::Open, Outcome::Commit(_)) => {
            let told = told_to_commit(alloc, push, now)?;
            entry.decide(push.lease(), &told);
        }
        (Outcome::Commit(_), _) => tell_late(entry, push, storage, now),
        _ => {}
    }
    Ok(())
}

// A storage that votes after the decision is in doubt, where it is told to commit.
fn tell_late(entry: &mut Repository, push: &OpenPush, storage: Option<StorageId>, now: &Transaction)
    ensures { entry.new ≡ came_late push.now now.now (storage_number storage) entry.old }
{
    if let Some(storage) = storage {
        if is_told(push, now, storage) {
            entry.tell_late(push.lease(), storage);
        }
    }
}

// Books a vote on what is committed: of the decided hash it confirms the commit.
fn book_commit(
    entry: &mut Repository,
    push: &OpenPush,
    storage: Option<StorageId>,
    hash: &Hash,
    was: Outcome,
)
    ensures { entry.new
        ≡ booked_by_commit push.now (storage_number storage) hash.now was entry.old }
{
    let (Outcome::Commit(decided), Some(storage)) = (was, storage) else {
        return;
    };
    if decided == *hash {
        entry.confirm(push.lease(), storage);
    }
}

// The member that the voter of a name is.
fn member_named(push: &OpenPush, votes: &Transaction, voter: &StorageName) -> Option<StorageId>
    ensures { storage_number result ≡ member_named push.now votes.now voter.now }
{
    let number = votes.number_of(voter)?;
    push.members().get(number as usize).copied()
}

// Whether a storage is told to commit: its result in the first phase is committed.
fn is_told(push: &OpenPush, votes: &Transaction, storage: StorageId) -> bool
    ensures { result ≡ is_told push.now votes.now storage.0 }
{
    match place_of(push.members(), storage) {
        Some(place) => is_committed(votes, place),
        None => false,
    }
}

// The place of a storage among the members, from 0.
fn place_of(members: &[StorageId], storage: StorageId) -> Option<usize>
    ensures { result ≡ place_in (numbers_of members.now) storage.0 }
{
    members.iter().position(|member| member.0 == storage.0)
}

// Whether the result of a voter in the first phase is committed.
fn is_committed(votes: &Transaction, voter: usize) -> bool
    ensures { result ≡ is_committed_in (Some voter) (slice_get votes.now.subs 0) }
{
    match votes.sub_at(1) {
        Some(sub) => {
            voter < sub.len() as usize
                && matches!(sub.result(voter as u32), Some(VoterResult::Committed(_)))
        }
        None => false,
    }
}

// The storages that are told to commit, in the order of the panel.
fn told_to_commit(
    alloc: Global,
    push: &OpenPush,
    votes: &Transaction,
) -> Result<Vec<StorageId>, AllocError>
    ensures { IfOk result (λ told. AreTold push.now votes.now told.items) }
{
    push.members()
        .iter()
        .filter(|member| is_told(push, votes, **member))
        .copied()
        .collect(alloc)
}
