//! Which storages can be reached.

ghost use Rattle.std.specs.Prelude.{◌≡◌, [], true, false, length, OnOk, OnErr};
ghost use Rattle.px_cluster.specs.Core.{is_up};
ghost use Rattle.genbook.specs.Health.{core_with_health, with_one_down, with_up};

use px_base::StorageId;
use std::alloc::{AllocError, Global};
use std::marker::Model;

/// Which storages are up, by their numbers, and whether one more is ready to be added. A storage of
/// which nothing is known is down.
#[derive(Drop)]
pub struct Health {
    up: Vec<bool>,
    ready: bool,
}

impl Model for Health {
    ghost use Rattle.std.specs.Prelude.{vec_capacity};
    ghost use Rattle.genbook.specs.Health.{HasRoom, Reachable};

    ghost Value = { Reachable };

    ghost view = { λ h. record { up = h.up.items; ready = h.ready } };

    ghost invariant = { λ h. HasRoom (vec_capacity h.up)
        (record { up = h.up.items; ready = h.ready }) };
}

impl Health {
    /// No storage yet.
    pub fn new(alloc: Global) -> Health
        ensures { result ≡ record { up = []; ready = false } }
    {
        Health {
            up: Vec::new(alloc),
            ready: false,
        }
    }

    /// Whether a storage is up.
    pub fn is_up(&self, storage: StorageId) -> bool
        ensures { result ≡ is_up (core_with_health self.now) storage.0 }
    {
        match self.up.get(storage.0 as usize) {
            Some(up) => *up,
            None => false,
        }
    }

    /// Raises a storage, or takes it down. A number that no storage has changes nothing.
    pub fn set(&mut self, storage: StorageId, up: bool)
        ensures { self.new ≡ with_up storage.0 up self.old }
    {
        let place = storage.0 as usize;
        if place < self.up.len() {
            self.up[place] = up;
        }
    }

    /// Takes the memory for one storage more, which is ready to be added then.
    pub fn prepare(&mut self) -> Result<(), AllocError>
        ensures list { self.new.up ≡ self.old.up }
        ensures ready { OnOk result (self.new.ready ≡ true) }
        ensures err { OnErr result (self.new ≡ self.old) }
    {
        self.up.reserve(1)?;
        self.ready = true;
        Ok(())
    }

    /// Adds the storage that is ready, under the next number. It is down. Takes no memory.
    pub fn add(&mut self)
        ensures { self.new ≡ with_one_down self.old }
    {
        if self.ready {
            self.ready = false;
            self.up.push_reserved(false);
        }
    }

    /// How many storages there are.
    pub fn count(&self) -> usize
        ensures { result ≡ length self.now.up }
    {
        self.up.len()
    }
}
