//! Objects under ids, on the way to a store.

ghost use Rattle.std.specs.Prelude.{◌≡◌, [], ◌∷◌, length, true, map, is_some, None, IfOk, OnOk, OnErr};
ghost use Rattle.std.specs.BTreeMap.{insert_entry};
ghost use Rattle.std.specs.List.Sorted.{IsStrictlySortedBy};
ghost use Rattle.std.specs.Map.{keys_of};
ghost use Rattle.px_base.specs.Hash.{hash_cmp};
ghost use Rattle.objstore.specs.Bundle.{bundle_fault, with_objects, without, without_id};
ghost use Rattle.objstore.specs.Entries.{AreSmall, Entries, IsStore, object_at, own_name};
ghost use Rattle.objstore.specs.ObjectMap.{HasRoom, IsRoomFor};

use crate::quarantine::Quarantine;
use px_base::{Bytes, Ids, Kind, Object, ObjectId};
use std::alloc::{AllocError, Global};
use std::collections::BTreeMap;
use std::marker::Model;

/// Objects under ids, of which any object may stand under any id.
#[derive(Drop)]
pub struct ObjectMap {
    pub(crate) objects: BTreeMap<ObjectId, Object>,
}

impl Model for ObjectMap {
    ghost use Rattle.std.specs.List.Sorted.{IsStrictlySortedBy};
    ghost use Rattle.std.specs.Map.{keys_of};
    ghost use Rattle.px_base.specs.Hash.{hash_cmp};
    ghost use Rattle.objstore.specs.Entries.{Entries};

    ghost Value = { Entries };

    ghost view = { λ m. m.objects.entries };

    ghost invariant = { λ m. IsStrictlySortedBy hash_cmp (keys_of m.objects.entries) };
}

impl ObjectMap {
    /// How many ids there are.
    pub fn len(&self) -> usize
        ensures len { result ≡ length self.now }
        ensures ordered { IsStrictlySortedBy hash_cmp (keys_of self.now) }
    {
        self.objects.len()
    }

    /// Makes room for objects of these ids, by an empty object under each that has none, and gives the
    /// ids of those, in order. Where memory wants, the map stays.
    pub fn make_room(&mut self, alloc: Global, ids: &[ObjectId]) -> Result<Ids, AllocError>
        ensures room { OnOk result (HasRoom self.old self.new ids.now) }
        ensures back { IfOk result (λ made. without self.new made ≡ self.old) }
        ensures err { OnErr result (self.new ≡ self.old) }
    {
        let mut made = Ids::new(alloc);
        for id in ids {
            if let Err(wanted) = self.make_one(alloc, *id, &mut made) {
                self.take_back(made.as_slice());
                return Err(wanted);
            }
        }
        Ok(made)
    }

    // Puts an empty object under an id that has none, and the id to the list.
    fn make_one(&mut self, alloc: Global, id: ObjectId, made: &mut Ids) -> Result<(), AllocError>
        ensures room { OnOk result (HasRoom self.old self.new (id ∷ [])) }
        ensures back { OnOk result ((was : Entries) → without self.old made.old ≡ was
            → without self.new made.new ≡ was) }
        ensures err { OnErr result (self.new ≡ self.old) }
        ensures err_made { OnErr result (made.new ≡ made.old) }
    {
        if self.objects.contains_key(&id) {
            return Ok(());
        }
        let Some(empty) = Object::new(Kind::Blob, Bytes::new(alloc)) else {
            // No content at all is small.
            return Err(AllocError);
        };
        self.objects.insert(id, empty)?;
        if let Err(wanted) = made.push(id) {
            self.remove(&id);
            return Err(wanted);
        }
        Ok(())
    }

    /// Moves objects in for which there is room, and leaves none in quarantine. Takes no memory.
    pub fn fill(&mut self, alloc: Global, objects: &mut Quarantine)
        requires { IsRoomFor self.old (map own_name objects.old) }
        ensures moved { (store : Entries) → IsStore store
            → HasRoom store self.old (map own_name objects.old)
            → self.new ≡ with_objects store objects.old }
        ensures store { (store : Entries) → IsStore store → AreSmall store
            → bundle_fault store 0 objects.old ≡ None
            → HasRoom store self.old (map own_name objects.old)
            → IsStore self.new × AreSmall self.new }
        ensures empty { objects.new ≡ [] }
    {
        let coming = objects.take(alloc);
        for (id, object) in coming.objects {
            self.set(id, object);
        }
        let _ids = self.len();
    }

    // Puts an object under an id that has one.
    fn set(&mut self, id: ObjectId, object: Object)
        requires { is_some (object_at self.old id) ≡ true }
        ensures { self.new ≡ insert_entry hash_cmp self.old id object }
    {
        let _ = self.objects.insert(id, object);
    }

    // Takes the object of an id away, if there is one.
    fn remove(&mut self, id: &ObjectId)
        ensures { self.new ≡ without_id self.old id.now }
    {
        self.objects.remove(id);
    }

    /// Takes the objects of these ids away, as far as there are any. Takes no memory.
    pub fn take_back(&mut self, ids: &[ObjectId])
        ensures { self.new ≡ without self.old ids.now }
    {
        for id in ids {
            self.remove(id);
        }
    }
}
