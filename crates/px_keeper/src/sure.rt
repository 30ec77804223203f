//! A keeper in memory that never fails.

ghost use Rattle.std.specs.Prelude.{◌≡◌, [], false, Some};
ghost use Rattle.std.specs.FinMap.{empty};

use crate::{Batch, KeepFault, Keeper, MemKeeper};
use px_base::Bytes;
use std::alloc::Global;

/// A keeper of rows in memory that never fails: its count of faults is always 0.
#[derive(Drop)]
pub struct SureKeeper {
    keeper: MemKeeper,
    ghost sure: { keeper.calls.failing ≡ [] },
}

impl SureKeeper {
    /// A keeper of no rows.
    pub fn new(alloc: Global) -> SureKeeper
        ensures rows { ⟦<SureKeeper as Keeper>⟧.rows result ≡ Some empty }
    {
        SureKeeper {
            keeper: MemKeeper::new(alloc, Vec::new(alloc)),
        }
    }
}

impl Keeper for SureKeeper {
    ghost rows = { λ k. ⟦<MemKeeper as Keeper>⟧.rows k.keeper };

    ghost keep_faults = { λ _. 0 };

    ghost commit_fails = { λ _. Some false };

    fn get(&mut self, alloc: Global, table: u8, key: &[u8]) -> Result<Option<Bytes>, KeepFault> {
        self.keeper.get(alloc, table, key)
    }

    fn scan(
        &mut self,
        alloc: Global,
        table: u8,
        after: Option<&[u8]>,
    ) -> Result<Option<(Bytes, Bytes)>, KeepFault> {
        self.keeper.scan(alloc, table, after)
    }

    fn commit(&mut self, batch: Batch) -> Result<(), KeepFault> {
        self.keeper.commit(batch)
    }

    fn faults(&self) -> u64 {
        0
    }
}
