//! The open pushes, and which of them has the turn of a repository.

ghost use Rattle.std.specs.Prelude.{◌≡◌, ◌<◌, ◌++◌, ◌∷◌, [], None, Some, OnOk, OnErr};
ghost use Rattle.std.specs.List.{All};
ghost use Rattle.std.specs.List.Sorted.{IsStrictlySortedBy};
ghost use Rattle.std.specs.Map.{keys_of};
ghost use Rattle.std.specs.BTreeMap.{insert_entry};
ghost use Rattle.std.specs.Ordering.{nat_cmp};
ghost use Rattle.std.specs.Option.{option_copied};
ghost use Rattle.px_cluster.specs.Core.{OpenPush as Recorded, push_of, turn_of};
ghost use Rattle.turns.specs.Turns.{Holds, canceled, changed, core_with_pushes, of_repository, stopped, without};

use crate::OpenPush;
use px_base::{RepoId, TxId};
use std::alloc::{AllocError, Global};
use std::collections::BTreeMap;
use std::marker::Model;

// Pushes by the numbers of their transactions.
type Numbered = BTreeMap<u64, OpenPush>;

// Transactions by the numbers of the repositories whose turn their pushes have.
type Holders = BTreeMap<u32, TxId>;

/// The open pushes, in the order of their transactions. Each has the turn of its repository. A push
/// is found by its transaction and by its repository, both in logarithmic time.
#[derive(Drop)]
pub struct Turns {
    pushes: Numbered,
    // One may be left of a push for which memory wanted: that push is not found, or is of another
    // repository.
    holders: Holders,
}

impl Model for Turns {
    ghost use Rattle.std.specs.Prelude.{List};
    ghost use Rattle.std.specs.Map.{values_of};
    ghost use Rattle.px_cluster.specs.Core.{OpenPush as Recorded};
    ghost use Rattle.turns.specs.Turns.{AreKept};

    ghost Value = { List Recorded };

    ghost view = { λ t. values_of t.pushes.entries };

    ghost invariant = { λ t. AreKept t.pushes.entries t.holders.entries };
}

impl Turns {
    /// No push is open.
    pub fn new(alloc: Global) -> Turns
        ensures { result ≡ [] }
    {
        Turns {
            pushes: BTreeMap::new(alloc),
            holders: BTreeMap::new(alloc),
        }
    }

    /// The push that has the turn of a repository. Takes no memory.
    pub fn turn(&self, repo: RepoId) -> Option<&OpenPush>
        ensures { option_copied result ≡ turn_of (core_with_pushes self.now) repo.0 }
    {
        match self.holders.get(&repo.0) {
            Some(tx) => self.turn_under(*tx, repo),
            None => None,
        }
    }

    /// The push of a transaction. Takes no memory.
    pub fn push(&self, tx: TxId) -> Option<&OpenPush>
        ensures { option_copied result ≡ push_of (core_with_pushes self.now) tx }
    {
        self.pushes.get(&tx.0)
    }

    /// A push begins, which has the turn of its repository from now on. Its transaction is later
    /// than those of all others, and the turn is free. Want of memory leaves all as it was.
    pub fn begin(&mut self, push: OpenPush) -> Result<(), AllocError>
        requires later { All (λ (other : Recorded). other.tx.0 < push.tx.0) self.old }
        requires free { turn_of (core_with_pushes self.old) push.repo ≡ None }
        ensures ok { OnOk result (self.new ≡ self.old ++ push ∷ []) }
        ensures err { OnErr result (self.new ≡ self.old) }
    {
        hold(&mut self.holders, &push)?;
        put(&mut self.pushes, push)
    }

    /// The push of a transaction ends, where there is one, and its turn is free. Takes no memory.
    pub fn end(&mut self, tx: TxId)
        ensures { self.new ≡ without tx self.old }
    {
        if let Some(push) = self.pushes.remove(&tx.0) {
            self.holders.remove(&push.repo().0);
        }
    }

    /// Marks the push of a transaction as canceled, where there is one. Takes no memory.
    pub fn cancel(&mut self, tx: TxId)
        ensures { self.new ≡ changed tx canceled self.old }
    {
        if let Some(push) = self.pushes.get_mut(&tx.0) {
            push.cancel();
        }
    }

    /// Marks the push of a transaction as stopped, where there is one. Takes no memory.
    pub fn stop(&mut self, tx: TxId)
        ensures { self.new ≡ changed tx stopped self.old }
    {
        if let Some(push) = self.pushes.get_mut(&tx.0) {
            push.stop();
        }
    }

    // The push of a transaction, where it is one of the repository.
    fn turn_under(&self, tx: TxId, repo: RepoId) -> Option<&OpenPush>
        ensures { option_copied result
            ≡ of_repository repo.0 (push_of (core_with_pushes self.now) tx) }
    {
        match self.push(tx) {
            Some(push) => of_repository(push, repo),
            None => None,
        }
    }
}

fn of_repository(push: &OpenPush, repo: RepoId) -> Option<&OpenPush>
    ensures { option_copied result ≡ of_repository repo.0 (Some push.now) }
{
    if push.repo().0 == repo.0 {
        Some(push)
    } else {
        None
    }
}

// The transaction of the push stands under its repository.
fn hold(holders: &mut Holders, push: &OpenPush) -> Result<(), AllocError>
    ensures ok { OnOk result (Holds push.now.repo (Some push.now.tx) holders.old.entries
        holders.new.entries) }
    ensures err { OnErr result (holders.new.entries ≡ holders.old.entries) }
{
    match holders.insert(push.repo().0, push.tx()) {
        Ok(_) => Ok(()),
        Err(_) => Err(AllocError),
    }
}

// The push stands under the number of its transaction.
fn put(pushes: &mut Numbered, push: OpenPush) -> Result<(), AllocError>
    ensures ok { OnOk result (pushes.new.entries
        ≡ insert_entry nat_cmp pushes.old.entries push.tx.0 push) }
    ensures ascend { IsStrictlySortedBy nat_cmp (keys_of pushes.new.entries) }
    ensures err { OnErr result (pushes.new.entries ≡ pushes.old.entries) }
{
    let tx = push.tx().0;
    match pushes.insert(tx, push) {
        Ok(_) => Ok(()),
        Err(_) => Err(AllocError),
    }
}
