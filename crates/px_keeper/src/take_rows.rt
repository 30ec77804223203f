//! What rows are read into.

ghost use Rattle.std.specs.Prelude.{◌≡◌, ℕ, List, Option, Some, Err, OnOk};
ghost use Rattle.px_keeper.specs.FirstBad.{FirstBad};
ghost use Rattle.px_keeper.specs.Keeper.{IsNext};
ghost use Rattle.px_keeper.specs.Reading.{ReadTo};
ghost use Rattle.px_keeper.specs.Row.{Rows, row_key};
ghost use Rattle.px_keeper.specs.declared.row_key.RowKey.{RowKey};

use std::alloc::{AllocError, Global};

/// Why a row was not taken over.
#[derive(Clone, Copy, Debug, PartialEq, Eq)]
pub enum NotTaken {
    /// The row is bad.
    BadRow,
    /// Memory wanted.
    Memory,
}

impl From<AllocError> for NotTaken {
    ghost use Rattle.std.specs.Prelude.{◌≡◌};
    ghost use Rattle.px_keeper.specs.declared.take_rows.NotTaken.TheVariants.{Memory};

    ghost from_gives = { λ _ e. e ≡ Memory };

    fn from(_: AllocError) -> NotTaken {
        NotTaken::Memory
    }
}

/// What rows are read into, one after the other, in the order of their tables and keys. It has a rule
/// that says which rows are good.
pub trait TakeRows {
    /// Among these rows, the one of that key may have that value.
    ghost good: { Rows → RowKey → List ℕ → Type 0 };

    /// It has what rows say that have these values, and nothing else.
    ghost has: { Self → (RowKey → Option (List ℕ)) → Type 0 };

    /// What is true of it as long as each row was taken over.
    ghost whole: { Self → Type 0 };

    /// Takes over what the next row says, which is the first one of the table above those that were
    /// taken over.
    fn take(&mut self, alloc: Global, table: u8, key: &[u8], value: &[u8]) -> Result<(), NotTaken>
        requires whole { whole self.old }
        ensures ok { OnOk result ((rows : Rows) (last : Option (List ℕ))
            → ReadTo good (has self.old) rows table last
            → IsNext rows table last key.now value.now
            → ReadTo good (has self.new) rows table (Some key.now)) }
        ensures bad { result ≡ Err NotTaken.BadRow → (rows : Rows) (last : Option (List ℕ))
            → ReadTo good (has self.old) rows table last
            → IsNext rows table last key.now value.now
            → FirstBad good rows (row_key table key.now) }
        ensures whole { OnOk result (whole self.new) };
}
