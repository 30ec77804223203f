//! What is kept of each lease, by its repository and storage. Only to make room takes memory.

ghost use Rattle.std.specs.Prelude.{◌≡◌, ◌==◌, IsSome, OnOk};
ghost use Rattle.std.specs.Option.{option_copied};
ghost use Rattle.px_cluster.specs.Ledger.{answered, with_commit, with_last, with_purpose};
ghost use Rattle.px_cluster.specs.Ledger.{with_purposes, with_snapshot};
ghost use Rattle.px_cluster.specs.Numbers.{is_one_of};
ghost use Rattle.genbook.specs.Changes.{numbers_of};
ghost use Rattle.issued.specs.Draws.{HasRoom, KeepsRoom, kept_at, ledger_of, room_at};
ghost use Rattle.issued.specs.Purposes.{purpose_drawn};

use crate::Purpose;
use crate::draw::Draw;
use crate::purpose::{Drawn, fresh, keep_answer, keep_commit, keep_fence_answer, keep_snapshot};
use crate::room::make_room;
use node_calls::Snapshot;
use px_base::{Lease, RepoId, StorageId};
use std::alloc::AllocError;
use std::collections::BTreeMap;
use voters::Verdict;

/// What is kept of each draw that there is room for. A draw of which nothing is kept is as good as
/// one without room.
pub(crate) type Draws = BTreeMap<Draw, Option<Purpose>>;

/// What is kept of a draw.
pub(crate) fn kept(draws: &Draws, draw: Draw) -> Option<&Purpose>
    ensures { option_copied result ≡ kept_at draws.now.entries draw }
{
    match draws.get(&draw) {
        Some(kept) => kept.as_ref(),
        None => None,
    }
}

/// Makes room for a lease at each of these storages. Where memory wants, there is room for some.
pub(crate) fn reserve_each(
    draws: &mut Draws,
    repo: RepoId,
    storages: &[StorageId],
    lease: Lease,
) -> Result<(), AllocError>
    ensures room { OnOk result
        (HasRoom draws.new.entries repo.0 (numbers_of storages.now) lease) }
    ensures others { KeepsRoom draws.old.entries draws.new.entries }
    ensures same { ledger_of draws.new.entries ≡ ledger_of draws.old.entries }
{
    for storage in storages {
        let draw = Draw {
            repo,
            storage: *storage,
            lease,
        };
        reserve(draws, draw)?;
    }
    Ok(())
}

/// Makes room for one draw.
pub(crate) fn reserve(draws: &mut Draws, draw: Draw) -> Result<(), AllocError>
    ensures room { OnOk result (IsSome (room_at draws.new.entries draw)) }
    ensures others { KeepsRoom draws.old.entries draws.new.entries }
    ensures same { ledger_of draws.new.entries ≡ ledger_of draws.old.entries }
{
    make_room(draws, draw)
}

/// The lease was drawn for this purpose, at each of these storages.
pub(crate) fn write_each(
    draws: &mut Draws,
    repo: RepoId,
    storages: &[StorageId],
    lease: Lease,
    what: Drawn,
)
    requires { HasRoom draws.old.entries repo.0 (numbers_of storages.now) lease }
    ensures { ledger_of draws.new.entries ≡ with_purposes (ledger_of draws.old.entries) repo.0
        (λ storage. is_one_of storage (numbers_of storages.now)) lease
        (λ storage old. purpose_drawn what) }
{
    for storage in storages {
        let draw = Draw {
            repo,
            storage: *storage,
            lease,
        };
        write(draws, draw, what);
    }
}

/// The lease was drawn for this purpose, at the storage of one draw.
pub(crate) fn write(draws: &mut Draws, draw: Draw, what: Drawn)
    requires { IsSome (room_at draws.old.entries draw) }
    ensures ledger { ledger_of draws.new.entries ≡ with_purpose (ledger_of draws.old.entries)
        draw.repo.0 draw.storage.0 draw.lease (purpose_drawn what) }
    ensures others { KeepsRoom draws.old.entries draws.new.entries }
{
    if let Some(kept) = draws.get_mut(&draw) {
        *kept = Some(fresh(what));
    }
}

/// The commit of a push is issued, by the verdict.
pub(crate) fn commit(draws: &mut Draws, draw: Draw, verdict: &Verdict)
    ensures { ledger_of draws.new.entries ≡ with_purposes (ledger_of draws.old.entries)
        draw.repo.0 (λ other. other == draw.storage.0) draw.lease
        (λ other purpose. with_commit verdict.now.hash purpose) }
{
    if let Some(kept) = draws.get_mut(&draw) {
        keep_commit(kept, verdict);
    }
}

/// The node answered.
pub(crate) fn answer(draws: &mut Draws, draw: Draw)
    ensures { ledger_of draws.new.entries ≡ with_purpose (ledger_of draws.old.entries)
        draw.repo.0 draw.storage.0 draw.lease
        (answered (ledger_of draws.old.entries draw.repo.0 draw.storage.0 draw.lease)) }
{
    if let Some(kept) = draws.get_mut(&draw) {
        keep_answer(kept);
    }
}

/// The node answered a fence with the lease of the last push that it did.
pub(crate) fn answer_fence(draws: &mut Draws, draw: Draw, last: Option<Lease>)
    ensures { ledger_of draws.new.entries ≡ with_purpose (ledger_of draws.old.entries)
        draw.repo.0 draw.storage.0 draw.lease
        (with_last last (ledger_of draws.old.entries draw.repo.0 draw.storage.0 draw.lease)) }
{
    if let Some(kept) = draws.get_mut(&draw) {
        keep_fence_answer(kept, last);
    }
}

/// A snapshot for an update is kept, in the place of an older one.
pub(crate) fn keep(draws: &mut Draws, draw: Draw, snapshot: Snapshot)
    ensures { ledger_of draws.new.entries ≡ with_purpose (ledger_of draws.old.entries)
        draw.repo.0 draw.storage.0 draw.lease
        (with_snapshot snapshot
        (ledger_of draws.old.entries draw.repo.0 draw.storage.0 draw.lease)) }
{
    if let Some(kept) = draws.get_mut(&draw) {
        keep_snapshot(kept, snapshot);
    }
}
