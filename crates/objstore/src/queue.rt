//! The queue of a walk.

ghost use Rattle.std.specs.Prelude.{◌≡◌, [], ◌∷◌, ◌++◌, MatchOption, OnOk};
ghost use Rattle.objstore.specs.Walk.{empty, queued, all_queued};

use px_base::ObjectId;
use std::alloc::{AllocError, Global};
use std::collections::BTreeSet;
use std::marker::Model;

/// The ids that wait, behind those that were taken. Nothing is moved: what was taken stays in its
/// place, and the set tells in logarithmic time what ever stood here.
#[derive(Drop)]
pub struct Queue {
    ids: Vec<ObjectId>,
    seen: BTreeSet<ObjectId>,
    taken: usize,
}

impl Model for Queue {
    ghost use Rattle.objstore.specs.Walk.{Walk};

    ghost Value = { Walk };

    ghost use Rattle.objstore.specs.Queue.{walk_of, IsQueue};

    ghost view = { walk_of };

    ghost invariant = { IsQueue };
}

impl Queue {
    /// The empty queue. It takes no memory yet.
    pub fn new(alloc: Global) -> Queue
        ensures { result ≡ empty }
    {
        Queue {
            ids: Vec::new(alloc),
            seen: BTreeSet::new(alloc),
            taken: 0,
        }
    }

    /// Takes the id in front.
    pub fn take(&mut self) -> Option<ObjectId>
        ensures { MatchOption result ((self.old.waiting ≡ []) × (self.new ≡ self.old))
            (λ id. (self.old.waiting ≡ id ∷ self.new.waiting)
            × (self.new.taken ≡ self.old.taken ++ id ∷ [])) }
    {
        if self.taken >= self.ids.len() {
            return None;
        }
        let id = self.ids[self.taken];
        self.taken += 1;
        Some(id)
    }

    /// Puts an id to the back, unless it ever stood here.
    pub fn push(&mut self, id: ObjectId) -> Result<(), AllocError>
        ensures { OnOk result (self.new ≡ queued self.old id) }
    {
        self.ids.reserve(1)?;
        if !self.seen.insert(id)? {
            return Ok(());
        }
        self.ids.push_reserved(id);
        Ok(())
    }

    /// Puts ids to the back in order, each that never stood here.
    pub fn push_all(&mut self, ids: &[ObjectId]) -> Result<(), AllocError>
        ensures { OnOk result (self.new ≡ all_queued self.old ids.now) }
    {
        for id in ids {
            self.push(*id)?;
        }
        Ok(())
    }
}
