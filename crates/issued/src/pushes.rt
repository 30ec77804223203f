//! The repository and the lease of each push that ever began, by its transaction.

ghost use Rattle.std.specs.Prelude.{◌≡◌, IsSome, OnOk, Some};
ghost use Rattle.std.specs.Option.{option_map};
ghost use Rattle.px_cluster.specs.Cluster.{with_value};
ghost use Rattle.issued.specs.Issued.{KeepsPushes, destination_of, push_room_at, pushed_of};

use crate::room::make_room;
use px_base::{Lease, RepoId, TxId};
use std::alloc::AllocError;
use std::collections::BTreeMap;

/// The push of each transaction that there is room for, where that began. A transaction is its
/// number.
pub(crate) type Pushes = BTreeMap<u64, Option<(RepoId, Lease)>>;

/// The repository and the lease of the push of a transaction.
pub(crate) fn push_of(pushes: &Pushes, tx: TxId) -> Option<(RepoId, Lease)>
    ensures { option_map destination_of result ≡ pushed_of pushes.now.entries tx.0 }
{
    match pushes.get(&tx.0) {
        Some(push) => *push,
        None => None,
    }
}

/// Makes room for the push of a transaction.
pub(crate) fn reserve(pushes: &mut Pushes, tx: TxId) -> Result<(), AllocError>
    ensures room { OnOk result (IsSome (push_room_at pushes.new.entries tx.0)) }
    ensures others { KeepsPushes pushes.old.entries pushes.new.entries }
    ensures same { pushed_of pushes.new.entries ≡ pushed_of pushes.old.entries }
{
    make_room(pushes, tx.0)
}

/// The push of a transaction, where there is room for it.
pub(crate) fn write(pushes: &mut Pushes, tx: TxId, repo: RepoId, lease: Lease)
    requires { IsSome (push_room_at pushes.old.entries tx.0) }
    ensures { pushed_of pushes.new.entries ≡ with_value (pushed_of pushes.old.entries) tx.0
        (Some (destination_of (repo, lease))) }
{
    if let Some(push) = pushes.get_mut(&tx.0) {
        *push = Some((repo, lease));
    }
}
