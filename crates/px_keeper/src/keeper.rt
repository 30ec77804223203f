//! A keeper of rows, with a count of its faults.

ghost use Rattle.std.specs.Prelude.{◌≡◌, ◌≢◌, ℕ, Bool, Option, None, Err, IsSome, IfOk, IfSome, OnOk, OnErr};
ghost use Rattle.std.specs.Option.{option_copied, option_map};
ghost use Rattle.px_keeper.specs.Row.{Rows, row_at};
ghost use Rattle.px_keeper.specs.Change.{applied};
ghost use Rattle.px_keeper.specs.Keeper.{KeepHasCause, KeepsPlan, ScanGives};

use crate::Batch;
use px_base::Bytes;
use std::alloc::{AllocError, Global};

/// Why a keeper did not answer.
#[derive(Clone, Copy, Debug, PartialEq, Eq)]
pub enum KeepFault {
    /// The keeper failed, and its count rose.
    Failed,
    /// Memory wanted.
    Memory,
}

impl From<AllocError> for KeepFault {
    ghost use Rattle.std.specs.Prelude.{◌≡◌};
    ghost use Rattle.px_keeper.specs.declared.keeper.KeepFault.TheVariants.{Memory};

    ghost from_gives = { λ _ e. e ≡ Memory };

    fn from(_: AllocError) -> KeepFault {
        KeepFault::Memory
    }
}

/// What keeps rows, each with a table, a key there and a value. A keeper may tell its rows, as one
/// in memory does; of one that tells nothing only the faults are known.
pub trait Keeper {
    /// The rows kept, where the keeper tells them.
    ghost rows: { Self → Option Rows };

    /// How often the keeper has failed, up to the last value of a `u64`, where the count stays.
    ghost keep_faults: { Self → ℕ };

    /// Whether the next commit fails, where the keeper tells. One that tells fails at no other call.
    ghost commit_fails: { Self → Option Bool } = { λ _. None };

    /// A copy of the value of a row, where the row is there.
    fn get(&mut self, alloc: Global, table: u8, key: &[u8]) -> Result<Option<Bytes>, KeepFault>
        ensures value { IfOk result (λ found.
            IfSome (rows self.old) (λ kept. found ≡ row_at kept table key.now)) }
        ensures same { rows self.new ≡ rows self.old }
        ensures plan { commit_fails self.new ≡ commit_fails self.old }
        ensures sure { IsSome (commit_fails self.old) → result ≢ Err KeepFault.Failed }
        ensures cause { KeepHasCause (keep_faults self.old) (keep_faults self.new) result };

    /// Copies of the least key of the table above `after`, or of the least of all where `after` is
    /// `None`, and of the value there.
    fn scan(
        &mut self,
        alloc: Global,
        table: u8,
        after: Option<&[u8]>,
    ) -> Result<Option<(Bytes, Bytes)>, KeepFault>
        ensures value { IfOk result (λ found.
            IfSome (rows self.old) (λ kept.
            ScanGives kept table (option_copied after.entry) found)) }
        ensures same { rows self.new ≡ rows self.old }
        ensures plan { commit_fails self.new ≡ commit_fails self.old }
        ensures sure { IsSome (commit_fails self.old) → result ≢ Err KeepFault.Failed }
        ensures cause { KeepHasCause (keep_faults self.old) (keep_faults self.new) result };

    /// Makes the changes of a batch, one after the other, and takes it in. An error leaves the rows as
    /// they were.
    fn commit(&mut self, batch: Batch) -> Result<(), KeepFault>
        ensures ok { OnOk result (rows self.new
            ≡ option_map (λ kept. applied kept batch) (rows self.old)) }
        ensures err { OnErr result (rows self.new ≡ rows self.old) }
        ensures plan { KeepsPlan (commit_fails self.old) (commit_fails self.new) result }
        ensures cause { KeepHasCause (keep_faults self.old) (keep_faults self.new) result };

    /// How often the keeper has failed.
    fn faults(&self) -> u64
        ensures { result ≡ keep_faults self.now };
}
