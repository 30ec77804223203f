//! Names with the object of each, on the way to the references of a repository.

ghost use Rattle.std.specs.Prelude.{◌≡◌, [], ◌∷◌, List, if◌then◌else◌, length, is_some, true, IfOk, IsTrue, OnOk, OnErr, MatchOption};
ghost use Rattle.std.specs.BTreeMap.{insert_entry, is_at};
ghost use Rattle.std.specs.List.Sorted.{IsStrictlySortedBy};
ghost use Rattle.std.specs.Map.{keys_of, remove_entry};
ghost use Rattle.px_base.specs.RefList.{IsRefList, References, name_cmp, ref_at};
ghost use Rattle.px_base.specs.RefName.{IsRefName};
ghost use Rattle.refstore.specs.RefMap.{AllBelow, IsLeastFrom, IsLeastPassing, IsRefMap, NonePasses, is_outside, is_set};
ghost use Rattle.refstore.specs.Stages.{IsOnTheWay, removals_of, restored, sets_of};
ghost use Rattle.refstore.specs.Updates.{Fits, after, is_among, names_of, updated};
ghost use Rattle.px_base.specs.declared.push.Update.{Update as UpdateValue};

use px_base::{Bytes, ObjectId, RefList, RefName, Update};
use std::alloc::{AllocError, Global};
use std::collections::BTreeMap;
use std::marker::Model;

/// Names of references with the object of each. Names may be in conflict here, any object may be
/// named, and there may be any number.
#[derive(Drop)]
pub struct RefMap {
    map: BTreeMap<Bytes, ObjectId>,
}

impl Model for RefMap {
    ghost use Rattle.px_base.specs.RefList.{References};
    ghost use Rattle.refstore.specs.RefMap.{IsRefMap};

    ghost Value = { References };

    ghost view = { λ m. m.map.entries };

    ghost invariant = { λ m. IsRefMap m.map.entries };
}

impl RefMap {
    /// The empty map. It takes no memory yet.
    pub fn new(alloc: Global) -> RefMap
        ensures { result ≡ [] }
    {
        RefMap {
            map: BTreeMap::new(alloc),
        }
    }

    /// How many names there are.
    pub fn len(&self) -> usize
        ensures len { result ≡ length self.now }
        ensures map { IsRefMap self.now }
    {
        self.map.len()
    }

    /// The object of a name.
    pub fn get(&self, name: &RefName) -> Option<ObjectId>
        ensures value { result ≡ ref_at self.now name.now }
        ensures map { IsRefMap self.now }
    {
        self.map.get(name.bytes()).copied()
    }

    /// The object of a name that these bytes are, if they are one.
    pub fn object_of(&self, bytes: &Bytes) -> Option<ObjectId>
        ensures value { result ≡ ref_at self.now bytes.now }
        ensures map { IsRefMap self.now }
    {
        self.map.get(bytes).copied()
    }

    /// Whether these bytes are one of the names.
    pub fn contains(&self, bytes: &Bytes) -> bool
        ensures value { result ≡ is_some (ref_at self.now bytes.now) }
        ensures name { IsTrue result → IsRefName bytes.now }
    {
        self.map.contains_key(bytes)
    }

    /// The least name that is not below these bytes.
    pub fn first_from(&self, bytes: &Bytes) -> Option<&Bytes>
        ensures { MatchOption result (AllBelow self.now bytes.now)
            (λ name. IsLeastFrom self.now bytes.now name.now) }
    {
        match self.map.range(bytes..).next() {
            Some((name, _)) => Some(name),
            None => None,
        }
    }

    /// The least name that is not below these bytes and is none of the others.
    pub fn first_outside(&self, bytes: &Bytes, others: &RefMap) -> Option<&Bytes>
        ensures { MatchOption result (NonePasses self.now (is_outside others.now) bytes.now)
            (λ name. IsLeastPassing self.now (is_outside others.now) bytes.now name.now) }
    {
        for (name, _) in self.map.range(bytes..) {
            if !others.contains(name) {
                return Some(name);
            }
        }
        None
    }

    /// The least name that is not below these bytes, and whose object is not the zero name.
    pub fn first_set(&self, bytes: &Bytes) -> Option<&Bytes>
        ensures { MatchOption result (NonePasses self.now is_set bytes.now)
            (λ name. IsLeastPassing self.now is_set bytes.now name.now) }
    {
        for (name, id) in self.map.range(bytes..) {
            if !id.is_zero() {
                return Some(name);
            }
        }
        None
    }

    /// Sets a name, which it copies, to an object. Where memory wants, the map stays.
    pub fn set(&mut self, alloc: Global, name: &RefName, id: ObjectId) -> Result<(), AllocError>
        ensures ok { OnOk result (self.new ≡ insert_entry name_cmp self.old name.now id) }
        ensures map { OnOk result (IsRefMap self.new) }
        ensures err { OnErr result (self.new ≡ self.old) }
    {
        let copied = name.bytes().copy(alloc)?;
        self.map.insert(copied, id)?;
        Ok(())
    }

    // Takes a name away.
    fn remove(&mut self, name: &RefName)
        ensures { self.new ≡ remove_entry (is_at (name_cmp name.now)) self.old }
    {
        self.map.remove(name.bytes());
    }

    // Does an update.
    fn update(&mut self, alloc: Global, update: &Update) -> Result<(), AllocError>
        ensures { OnOk result (self.new ≡ updated self.old update.now) }
    {
        if update.new.is_zero() {
            self.remove(&update.name);
            return Ok(());
        }
        self.set(alloc, &update.name, update.new)
    }

    /// Does those of the updates that give a name an object, in order. That is all of a list that takes
    /// memory. Where memory wants, some of them are done.
    pub fn set_all(&mut self, alloc: Global, updates: &[Update]) -> Result<(), AllocError>
        ensures ok { OnOk result (self.new ≡ after self.old (sets_of updates.now)) }
        ensures way { IsRefMap self.old × IsOnTheWay self.old self.new updates.now }
    {
        let _names = self.len();
        for update in updates {
            self.set_one(alloc, update)?;
        }
        Ok(())
    }

    // Does an update that gives its name an object, and leaves any other one.
    fn set_one(&mut self, alloc: Global, update: &Update) -> Result<(), AllocError>
        ensures ok { OnOk result ((rest : List UpdateValue)
            → after self.old (sets_of (update.now ∷ rest)) ≡ after self.new (sets_of rest)) }
        ensures way { (refs : References) (updates : List UpdateValue)
            → is_among update.now.name (names_of updates) ≡ true
            → IsOnTheWay refs self.old updates → IsOnTheWay refs self.new updates }
    {
        if update.new.is_zero() {
            return Ok(());
        }
        self.set(alloc, &update.name, update.new)
    }

    /// Does the other ones of the updates, behind those, in order. Takes no memory.
    pub fn remove_all(&mut self, updates: &[Update])
        ensures { (refs : References) → IsRefList refs → Fits updates.now refs
            → self.old ≡ after refs (sets_of updates.now)
            → (self.new ≡ after refs updates.now) × IsRefList self.new }
    {
        for update in updates {
            self.remove_one(update);
        }
        let _names = self.len();
    }

    // Does an update that takes its name away, and leaves any other one.
    fn remove_one(&mut self, update: &Update)
        ensures { (rest : List UpdateValue)
            → after self.old (removals_of (update.now ∷ rest)) ≡ after self.new (removals_of rest) }
    {
        if update.new.is_zero() {
            self.remove(&update.name);
        }
    }

    /// Gives each name that the updates change its old object back. Takes no memory.
    pub fn take_back(&mut self, updates: &[Update])
        ensures { (refs : References) → IsRefList refs → Fits updates.now refs
            → IsOnTheWay refs self.old updates.now → self.new ≡ refs }
    {
        let _names = self.len();
        for update in updates {
            self.restore(update);
        }
    }

    // Gives a name that an update changes its old object back, if it is there.
    fn restore(&mut self, update: &Update)
        ensures { self.new ≡ restored self.old update.now }
    {
        if update.old.is_zero() {
            self.remove(&update.name);
            return;
        }
        replace(&mut self.map, update.name.bytes(), update.old);
    }

    /// A copy of the map.
    pub fn copy(&self, alloc: Global) -> Result<RefMap, AllocError>
        ensures { IfOk result (λ copied. copied ≡ self.now) }
    {
        let mut map = BTreeMap::new(alloc);
        for (name, id) in &self.map {
            map.insert(name.copy(alloc)?, *id)?;
        }
        Ok(RefMap { map })
    }

    /// A copy of the map with each of the updates done, in order.
    pub fn updated(&self, alloc: Global, updates: &[Update]) -> Result<RefMap, AllocError>
        ensures { IfOk result (λ made. made ≡ after self.now updates.now) }
    {
        let mut made = self.copy(alloc)?;
        for update in updates {
            made.update(alloc, update)?;
        }
        Ok(made)
    }

    /// A list of them, with copies of the names, where a repository may have them.
    pub fn list(&self, alloc: Global) -> Result<RefList, AllocError>
        requires { IsRefList self.now }
        ensures { IfOk result (λ list. list ≡ self.now) }
    {
        let mut list = RefList::new(alloc);
        for (name, id) in &self.map {
            let name = RefName::of(name.copy(alloc)?);
            list.push(name, *id)?;
        }
        Ok(list)
    }
}

// Puts an object under a name that is there.
fn replace(map: &mut BTreeMap<Bytes, ObjectId>, name: &Bytes, id: ObjectId)
    ensures { map.new.entries ≡ (if is_some (ref_at map.old.entries name.now)
        then insert_entry name_cmp map.old.entries name.now id else map.old.entries) }
{
    if let Some(slot) = map.get_mut(name) {
        *slot = id;
    }
}
