//! A storage, as the book has it.

use px_base::StorageName;
use std::marker::Model;

/// A storage.
#[derive(Clone, Copy, Debug, PartialEq, Eq)]
pub struct Storage {
    /// The virtual storage that it belongs to.
    pub virt: StorageName,
    /// Its name.
    pub name: StorageName,
}

impl Model for Storage {
    ghost use Rattle.px_cluster.specs.Book.{Storage as Known};

    ghost Value = { Known };

    ghost view = { λ s. record { virt = s.virt; name = s.name } };

    ghost inverse = { λ s. record { virt = s.virt; name = s.name } };
}
