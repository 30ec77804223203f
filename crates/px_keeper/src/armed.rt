//! A keeper in memory whose next commit can be made to fail.

ghost use Rattle.std.specs.Prelude.{◌≡◌, false, true, Some};
ghost use Rattle.std.specs.FinMap.{empty};

use crate::{Batch, KeepFault, Keeper, SureKeeper};
use px_base::Bytes;
use std::alloc::Global;

/// A keeper of rows in memory that can be armed. It fails at the first commit after it was armed,
/// which changes no row, and at no other call.
#[derive(Drop)]
pub struct ArmedKeeper {
    keeper: SureKeeper,
    armed: bool,
    faults: u64,
}

impl ArmedKeeper {
    /// A keeper of no rows, which is not armed.
    pub fn new(alloc: Global) -> ArmedKeeper
        ensures rows { ⟦<ArmedKeeper as Keeper>⟧.rows result ≡ Some empty }
        ensures faults { ⟦<ArmedKeeper as Keeper>⟧.keep_faults result ≡ 0 }
        ensures armed { ⟦<ArmedKeeper as Keeper>⟧.commit_fails result ≡ Some false }
    {
        ArmedKeeper {
            keeper: SureKeeper::new(alloc),
            armed: false,
            faults: 0,
        }
    }

    /// Makes the next commit fail.
    pub fn arm(&mut self)
        ensures armed { ⟦<ArmedKeeper as Keeper>⟧.commit_fails self.new ≡ Some true }
        ensures rows { ⟦<ArmedKeeper as Keeper>⟧.rows self.new
            ≡ ⟦<ArmedKeeper as Keeper>⟧.rows self.old }
        ensures faults { ⟦<ArmedKeeper as Keeper>⟧.keep_faults self.new
            ≡ ⟦<ArmedKeeper as Keeper>⟧.keep_faults self.old }
    {
        self.armed = true;
    }
}

impl Keeper for ArmedKeeper {
    ghost rows = { λ k. ⟦<SureKeeper as Keeper>⟧.rows k.keeper };

    ghost keep_faults = { λ k. k.faults };

    ghost commit_fails = { λ k. Some k.armed };

    fn get(&mut self, alloc: Global, table: u8, key: &[u8]) -> Result<Option<Bytes>, KeepFault> {
        self.keeper.get(alloc, table, key)
    }

    fn scan(
        &mut self,
        alloc: Global,
        table: u8,
        after: Option<&[u8]>,
    ) -> Result<Option<(Bytes, Bytes)>, KeepFault> {
        self.keeper.scan(alloc, table, after)
    }

    fn commit(&mut self, batch: Batch) -> Result<(), KeepFault> {
        if self.armed {
            self.armed = false;
            self.faults = self.faults.saturating_add(1);
            return Err(KeepFault::Failed);
        }
        self.keeper.commit(batch)
    }

    fn faults(&self) -> u64 {
        self.faults
    }
}
