//! The number of a transaction, as a key of the table.

ghost use Rattle.std.specs.Prelude.{◌≡◌, nat_eq, Some};
ghost use Rattle.std.specs.Ordering.{nat_cmp};
ghost use Rattle.std.specs.Cmp.Rules.{comparing};
ghost use Rattle.std.proofs.Common.{rules, refl};

use px_base::TxId;
use std::cmp::Ordering;
use std::marker::Model;

/// The number of a transaction, as a key of the table, where contracts see the number. A search goes on at each key
/// that is smaller than the one it looks for, and so this order tests that first.
#[derive(Drop)]
pub struct Key(u64);

impl Model for Key {
    ghost use Rattle.std.specs.Prelude.{ℕ};

    ghost Value = { ℕ };

    ghost view = { λ k. k.0 };
}

impl Key {
    /// The key of a transaction.
    pub fn of(tx: TxId) -> Key
        ensures { result ≡ tx.0 }
    {
        Key(tx.0)
    }
}

impl PartialEq for Key {
    ghost eq = { nat_eq };

    ghost laws = { Prim.search (comparing, rules) };

    fn eq(&self, other: &Key) -> bool {
        self.0 == other.0
    }
}

impl Eq for Key {
    ghost laws = { Prim.search rules };
}

impl PartialOrd for Key {
    ghost partial_cmp = { λ a b. Some (nat_cmp a b) };

    ghost laws = { Prim.search (comparing, rules) };

    fn partial_cmp(&self, other: &Key) -> Option<Ordering> {
        Some(self.cmp(other))
    }
}

impl Ord for Key {
    ghost cmp = { nat_cmp };

    ghost total = { Prim.search rules };

    ghost matches_partial_cmp = { λ a b. refl };

    ghost matches_eq = { Prim.search rules };

    fn cmp(&self, other: &Key) -> Ordering {
        if self.0 > other.0 {
            Ordering::Greater
        } else if self.0 == other.0 {
            Ordering::Equal
        } else {
            Ordering::Less
        }
    }
}
