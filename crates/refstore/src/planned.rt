//! References as they would be once updates were done.

ghost use Rattle.std.specs.Prelude.{◌≡◌, ◌<◌, ◌≤◌, ◌^◌, ◌-◌, ◌+◌, if◌then◌else◌, [], length, is_some, IfOk, IsTrue, OnOk, MatchOption};
ghost use Rattle.px_base.specs.RefList.{IsRefList, ref_at};
ghost use Rattle.px_base.specs.RefName.{IsRefName};
ghost use Rattle.refstore.specs.RefMap.{AllBelow, IsLeastFrom, IsRefMap};
ghost use Rattle.refstore.specs.Updates.{after, updated};

use crate::ref_map::RefMap;
use px_base::{Bytes, RefName, Update};
use std::alloc::{AllocError, Global};
use std::marker::Model;

/// References as they would be once updates were done. The references themselves are looked at where
/// they are, and not copied: only the names of the updates are.
#[derive(Drop)]
pub struct Planned<'a> {
    refs: &'a RefMap,
    // The new objects of the names that change, with the zero name where one is taken away.
    changes: RefMap,
    count: usize,
}

impl<'a> Model for Planned<'a> {
    ghost use Rattle.std.specs.Prelude.{◌≡◌, length};
    ghost use Rattle.px_base.specs.RefList.{References};
    ghost use Rattle.refstore.specs.Planned.{overlaid};
    ghost use Rattle.refstore.specs.RefMap.{IsRefMap};

    ghost Value = { References };

    ghost view = { λ p. overlaid p.refs.now p.changes };

    ghost invariant = { λ p. IsRefMap p.refs.now × IsRefMap p.changes
        × IsRefMap (overlaid p.refs.now p.changes)
        × (p.count ≡ length (overlaid p.refs.now p.changes)) };
}

impl<'a> Planned<'a> {
    /// The references as they are. It takes no memory yet.
    pub fn of(alloc: Global, refs: &'a RefMap) -> Planned<'a>
        ensures { result ≡ refs.now }
    {
        Planned {
            refs,
            changes: RefMap::new(alloc),
            count: refs.len(),
        }
    }

    /// How many there are.
    pub fn len(&self) -> usize
        ensures len { result ≡ length self.now }
        ensures map { IsRefMap self.now }
    {
        self.count
    }

    /// Whether these bytes are one of the names.
    pub fn contains(&self, bytes: &Bytes) -> bool
        ensures value { result ≡ is_some (ref_at self.now bytes.now) }
        ensures name { IsTrue result → IsRefName bytes.now }
    {
        match self.changes.object_of(bytes) {
            Some(id) => !id.is_zero(),
            None => self.refs.contains(bytes),
        }
    }

    /// The least name that is not below these bytes.
    pub fn first_from(&self, bytes: &Bytes) -> Option<&Bytes>
        ensures { MatchOption result (AllBelow self.now bytes.now)
            (λ name. IsLeastFrom self.now bytes.now name.now) }
    {
        let kept = self.refs.first_outside(bytes, &self.changes);
        let set = self.changes.first_set(bytes);
        match (kept, set) {
            (Some(kept), Some(set)) => { if set < kept { Some(set) } else { Some(kept) } }
            (Some(kept), None) => Some(kept),
            (None, set) => set,
        }
    }

    /// Does the updates, in order.
    pub fn update_all(&mut self, alloc: Global, updates: &[Update]) -> Result<(), AllocError>
        requires few { length self.old ≤ 32768 }
        ensures { OnOk result (self.new ≡ after self.old updates.now) }
    {
        for update in updates {
            self.update(alloc, update)?;
        }
        Ok(())
    }

    // Does an update.
    fn update(&mut self, alloc: Global, update: &Update) -> Result<(), AllocError>
        requires room { length self.old < 2 ^ 64 - 1 }
        ensures ok { OnOk result (self.new ≡ updated self.old update.now) }
        ensures few { OnOk result (length self.new ≤ length self.old + 1) }
    {
        let had = self.contains(update.name.bytes());
        let has = !update.new.is_zero();
        self.changes.set(alloc, &update.name, update.new)?;
        self.count = counted(self.count, had, has);
        Ok(())
    }
}

// How many there are, where a name was there or not, and then is or is not.
fn counted(count: usize, had: bool, has: bool) -> usize
    requires had { IsTrue had → 0 < count }
    requires room { count < 2 ^ 64 - 1 }
    ensures { result + (if had then 1 else 0) ≡ count + (if has then 1 else 0) }
{
    match (had, has) {
        (false, true) => count + 1,
        (true, false) => count - 1,
        _ => count,
    }
}
