//! What is read of the core for what is told to nodes. None of it takes memory.

ghost use Rattle.std.specs.Prelude.{◌≡◌, ◌<◌, length, IfSome};
ghost use Rattle.std.specs.Option.{option_copied};
ghost use Rattle.px_cluster.specs.Core.{push_of};
ghost use Rattle.px_cluster.specs.Ids.{storage_number};
ghost use Rattle.px_core.specs.Readers.{member_of, path_on, storage_of};

use crate::Core;
use px_base::{RepoId, RepoPath, StorageId, StorageName, TxId};
use turns::OpenPush;

impl Core {
    /// The number of the storage of a name.
    pub fn storage_of(&self, name: &StorageName) -> Option<StorageId>
        ensures { storage_number result ≡ storage_of self.now name.now }
    {
        let (storage, _) = self.book.known(name)?;
        Some(storage)
    }

    /// The path of a repository, where the storage is of its virtual storage.
    pub fn path_on(&self, repo: RepoId, storage: StorageId) -> Option<&RepoPath>
        ensures path { option_copied result ≡ path_on self.now repo.0 storage.0 }
        ensures known { IfSome result (λ path. storage.0 < length self.now.storages) }
    {
        let repository = self.book.repository(repo)?;
        match repository.replica(storage) {
            Some(_) => Some(repository.path()),
            None => None,
        }
    }

    /// The open push of a transaction.
    pub fn push(&self, tx: TxId) -> Option<&OpenPush>
        ensures { option_copied result ≡ push_of self.now tx }
    {
        self.turns.push(tx)
    }

    /// The member of the open push of a transaction that the voter of a name is.
    pub fn member(&self, tx: TxId, voter: &StorageName) -> Option<StorageId>
        ensures { storage_number result ≡ member_of self.now tx voter.now }
    {
        let push = self.turns.push(tx)?;
        let votes = self.votes.get(tx)?;
        let number = votes.number_of(voter)?;
        push.members().get(number as usize).copied()
    }
}
