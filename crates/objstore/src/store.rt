//! A store of objects.

ghost use Rattle.std.specs.Prelude.{◌≡◌, ◌⊎◌, ◌↔◌, [], length, IfOk, IfErr, IfSome, IsSome, IsTrue, OnOk, OnErr, None};
ghost use Rattle.std.specs.BTreeMap.{insert_entry};
ghost use Rattle.std.specs.Map.{keys_of};
ghost use Rattle.std.specs.Option.{option_copied};
ghost use Rattle.px_base.specs.Hash.{hash_cmp};
ghost use Rattle.px_base.specs.Object.{IsSmall};
ghost use Rattle.px_base.specs.declared.hash.Hash.{Hash};
ghost use Rattle.object_format.specs.Links.{bad_byte, links_of};
ghost use Rattle.objstore.specs.Entries.{AreSmall, IsNamed, IsStore, object_at, object_in};
ghost use Rattle.objstore.specs.Put.{AddsObject, IsRefused, Puts};
ghost use Rattle.objstore.specs.Reach.{IsClosed, links_in};
ghost use Rattle.objstore.specs.Walk.{all_queued};
ghost use Rattle.objstore.specs.Missing.{IsMissed};

use crate::object_map::ObjectMap;
use crate::queue::Queue;
use object_format::{check, links, name_of};
use px_base::{Ids, Object, ObjectId};
use std::alloc::{AllocError, Global};
use std::collections::BTreeMap;
use std::marker::Model;

/// What putting an object came to.
#[derive(Clone, Copy, Debug, PartialEq, Eq)]
pub enum Put {
    /// The store has it now.
    Added,
    /// The store had it already.
    Present,
}

/// Why an object was not put into a store, in the order in which the causes are tested.
#[derive(Clone, Copy, Debug, PartialEq, Eq)]
pub enum PutFault {
    /// The content breaks the form of its kind.
    BadObject {
        /// The first byte that breaks it, from 0, or the length where the content ends too early.
        at: usize,
    },
    /// An object of the same name has other bytes or another kind.
    Collision {
        /// The name.
        id: ObjectId,
    },
    /// Memory wanted.
    Memory,
}

impl From<AllocError> for PutFault {
    ghost use Rattle.std.specs.Prelude.{◌≡◌};
    ghost use Rattle.objstore.specs.declared.store.PutFault.TheVariants.{Memory};

    ghost from_gives = { λ _ e. e ≡ Memory };

    fn from(_: AllocError) -> PutFault {
        PutFault::Memory
    }
}

/// Why not all that is reachable was found.
#[derive(Clone, Copy, Debug, PartialEq, Eq)]
pub enum ClosedFault {
    /// The first id that the walk takes and that has no object.
    Missing(ObjectId),
    /// Memory wanted.
    Memory,
}

impl From<AllocError> for ClosedFault {
    ghost use Rattle.std.specs.Prelude.{◌≡◌};
    ghost use Rattle.objstore.specs.declared.store.ClosedFault.TheVariants.{Memory};

    ghost from_gives = { λ _ e. e ≡ Memory };

    fn from(_: AllocError) -> ClosedFault {
        ClosedFault::Memory
    }
}

/// Git objects by their names, each under its own.
#[derive(Drop)]
pub struct Store {
    objects: BTreeMap<ObjectId, Object>,
}

impl Model for Store {
    ghost use Rattle.object_format.specs.Links.{bad_byte, links_of};
    ghost use Rattle.objstore.specs.Entries.{AreSmall, Entries, IsStore};

    ghost Value = { Entries };

    ghost view = { λ s. s.objects.entries };

    ghost invariant = { λ s. IsStore s.objects.entries × AreSmall s.objects.entries };
}

impl Store {
    /// The empty store. It takes no memory yet.
    pub fn new(alloc: Global) -> Store
        ensures { result ≡ [] }
    {
        Store {
            objects: BTreeMap::new(alloc),
        }
    }

    /// The objects as a map, in which any may stand under any id.
    pub fn into_map(self) -> ObjectMap
        ensures map { result ≡ self }
        ensures store { IsStore self }
        ensures small { AreSmall self }
    {
        ObjectMap {
            objects: self.objects,
        }
    }

    /// The store of a map in which each object stands under its name.
    pub fn of_map(map: ObjectMap) -> Store
        requires store { IsStore map }
        requires small { AreSmall map }
        ensures { result ≡ map }
    {
        Store {
            objects: map.objects,
        }
    }

    /// Puts a copy of an object under its name. A refusal leaves the store as it was.
    pub fn put(&mut self, alloc: Global, object: &Object) -> Result<Put, PutFault>
        ensures ok { IfOk result (Puts self.old self.new object.now) }
        ensures accepted { OnOk result (bad_byte object.now.kind object.now.content ≡ None) }
        ensures refused { IfErr result (IsRefused self.old object.now) }
        ensures err { OnErr result (self.new ≡ self.old) }
        ensures store { OnOk result (IsStore self.new) }
    {
        if let Some(at) = check(object.kind(), object.content()) {
            return Err(PutFault::BadObject { at });
        }
        let id = name_of(object.kind(), object.content());
        if let Some(other) = self.objects.get(&id) {
            if other.is_same(object) {
                return Ok(Put::Present);
            }
            return Err(PutFault::Collision { id });
        }
        self.set(alloc, id, object)?;
        Ok(Put::Added)
    }

    // Sets a copy of an object under its name. Where it was not there, that is one object more.
    pub(crate) fn set(
        &mut self,
        alloc: Global,
        id: ObjectId,
        object: &Object,
    ) -> Result<(), AllocError>
        requires named { IsNamed id object.now }
        requires small { IsSmall object.now.content }
        ensures ok { OnOk result (self.new ≡ insert_entry hash_cmp self.old id object.now) }
        ensures more { OnOk result (object_at self.old id ≡ None
            → AddsObject self.old self.new id object.now) }
        ensures store { OnOk result (IsStore self.new) }
        ensures err { OnErr result (self.new ≡ self.old) }
    {
        let copy = object.copy(alloc)?;
        self.objects.insert(id, copy)?;
        Ok(())
    }

    /// The object of that name. Takes no memory.
    pub fn get(&self, id: &ObjectId) -> Option<&Object>
        ensures value { option_copied result ≡ object_at self.now id.now }
        ensures named { IfSome result (λ object. IsNamed id.now object.now) }
        ensures store { IsStore self.now }
        ensures small { AreSmall self.now }
    {
        self.objects.get(id)
    }

    /// How many objects there are.
    pub fn len(&self) -> usize
        ensures len { result ≡ length self.now }
        ensures store { IsStore self.now }
        ensures small { AreSmall self.now }
    {
        self.objects.len()
    }

    /// Whether there is none.
    pub fn is_empty(&self) -> bool
        ensures { IsTrue result ↔ (self.now ≡ []) }
    {
        self.objects.is_empty()
    }

    /// The ids, in their order.
    pub fn ids(&self, alloc: Global) -> Result<Ids, AllocError>
        ensures { IfOk result (λ ids. ids ≡ keys_of self.now) }
    {
        let mut ids = Ids::new(alloc);
        for (id, _) in &self.objects {
            ids.push(*id)?;
        }
        Ok(ids)
    }

    /// Whether each id that is reachable from the tips has an object, here or in the extra store.
    /// Where both have an id, the object that is here counts.
    pub fn closed(&self, alloc: Global, tips: &[ObjectId], extra: &Store) -> Result<(), ClosedFault>
        ensures ok { OnOk result (IsClosed (object_in self.now extra.now) tips.now) }
        ensures missing { IfErr result (IsMissed (object_in self.now extra.now) tips.now) }
    {
        let mut queue = Queue::new(alloc);
        queue.push_all(tips)?;
        while let Some(id) = queue.take() {
            self.follow_in(alloc, extra, &id, &mut queue)?;
        }
        Ok(())
    }

    // Puts the links of the object of an id, here or else in the extra store, to the queue.
    fn follow_in(
        &self,
        alloc: Global,
        extra: &Store,
        id: &ObjectId,
        queue: &mut Queue,
    ) -> Result<(), ClosedFault>
        ensures queue { OnOk result (queue.new
            ≡ all_queued queue.old (links_in (object_in self.now extra.now id.now))) }
        ensures found { OnOk result (IsSome (object_in self.now extra.now id.now)) }
        ensures missing { IfErr result (λ e. (e ≡ ClosedFault.Memory)
            ⊎ (e ≡ ClosedFault.Missing id.now) × (object_in self.now extra.now id.now ≡ None)) }
    {
        match self.find(id, extra) {
            Some(object) => Ok(push_links(alloc, object, queue)?),
            None => Err(ClosedFault::Missing(*id)),
        }
    }

    // The object of an id here, or else in the extra store.
    pub(crate) fn find<'a>(&'a self, id: &ObjectId, extra: &'a Store) -> Option<&'a Object>
        ensures value { option_copied result ≡ object_in self.now extra.now id.now }
        ensures form { IfSome result (λ object.
            bad_byte object.now.kind object.now.content ≡ None) }
    {
        match self.get(id) {
            Some(object) => Some(object),
            None => extra.get(id),
        }
    }
}

// Puts the links of an object that has the form of its kind to the queue.
pub(crate) fn push_links(
    alloc: Global,
    object: &Object,
    queue: &mut Queue,
) -> Result<(), AllocError>
    requires { bad_byte object.now.kind object.now.content ≡ None }
    ensures { OnOk result (queue.new
        ≡ all_queued queue.old (links_of object.now.kind object.now.content)) }
{
    let links = links_in_form(alloc, object)?;
    queue.push_all(links.as_slice())
}

// The links of an object that has the form of its kind.
fn links_in_form(alloc: Global, object: &Object) -> Result<Ids, AllocError>
    requires { bad_byte object.now.kind object.now.content ≡ None }
    ensures { IfOk result (λ ids. ids ≡ links_of object.now.kind object.now.content) }
{
    match links(alloc, object.kind(), object.content()) {
        Ok(ids) => Ok(ids),
        // No byte is bad, so memory wants.
        Err(_) => Err(AllocError),
    }
}
