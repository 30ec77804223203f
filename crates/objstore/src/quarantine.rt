//! Objects that are kept apart until they may come to a store.

ghost use Rattle.std.specs.Prelude.{◌≡◌, ◌⊎◌, [], length, map, slice_get, None, Some, IfOk, IfErr, IfSome, OnOk};
ghost use Rattle.std.specs.Option.{option_map};
ghost use Rattle.objstore.specs.Bundle.{bundle_fault, with_objects};
ghost use Rattle.objstore.specs.Entries.{AreSmall, own_name};

use crate::bundles::{BundleFault, bring};
use crate::object_map::ObjectMap;
use crate::store::Store;
use px_base::{Ids, Object, ObjectId};
use std::alloc::Global;
use std::marker::Model;
use std::mem;

/// Copies of objects that came together, as those of a push, apart from the store that they are for,
/// as git-receive-pack(1) keeps them in quarantine. Each was named once. What is seen is the list of
/// the objects, in the order in which they came; one that came twice is held once.
#[derive(Drop)]
pub struct Quarantine {
    ids: Ids,
    objects: Store,
}

impl Model for Quarantine {
    ghost use Rattle.std.specs.Prelude.{List};
    ghost use Rattle.px_base.specs.Object.{GitObject};
    ghost use Rattle.objstore.specs.Quarantine.{AreKept, objects_of};

    ghost Value = { List GitObject };

    ghost view = { λ q. objects_of q.ids q.objects };

    ghost invariant = { λ q. AreKept q.ids q.objects (objects_of q.ids q.objects) };
}

impl Quarantine {
    /// Copies of the objects, where each has the form of its kind and none collides with one of the
    /// store or with an earlier one of the list.
    pub fn of(alloc: Global, store: &Store, objects: &[Object]) -> Result<Quarantine, BundleFault>
        ensures ok { IfOk result (λ kept. kept ≡ objects.now) }
        ensures accepted { OnOk result (bundle_fault store.now 0 objects.now ≡ None) }
        ensures refused { IfErr result (λ e. (e ≡ BundleFault.Memory)
            ⊎ (bundle_fault store.now 0 objects.now ≡ Some e)) }
    {
        let mut ids = Ids::new(alloc);
        let mut extra = Store::new(alloc);
        for (index, object) in objects.iter().enumerate() {
            let id = bring(alloc, store, &mut extra, index, object)?;
            ids.push(id)?;
        }
        Ok(Quarantine {
            ids,
            objects: extra,
        })
    }

    /// How many objects came.
    pub fn len(&self) -> usize
        ensures { result ≡ length self.now }
    {
        self.ids.len()
    }

    /// The object at a place of the list, from 0, with its name, or `None` past the end. Takes no
    /// memory.
    pub fn get(&self, at: usize) -> Option<(ObjectId, &Object)>
        ensures value { option_map (λ named. named.1.now) result ≡ slice_get self.now at }
        ensures named { IfSome result (λ named. named.0 ≡ own_name named.1.now) }
    {
        let Some(id) = self.ids.get(at) else {
            return None;
        };
        let Some(object) = self.objects.get(id) else {
            return None;
        };
        Some((*id, object))
    }

    /// Their names, in the order of the list.
    pub fn names(&self) -> &[ObjectId]
        ensures { result.now ≡ map own_name self.now }
    {
        self.ids.as_slice()
    }

    /// The objects as a store of their own.
    pub fn store(&self) -> &Store
        ensures { result.now ≡ with_objects [] self.now }
    {
        &self.objects
    }

    // Takes the objects out, each under its name.
    pub(crate) fn take(&mut self, alloc: Global) -> ObjectMap
        ensures taken { result ≡ with_objects [] self.old }
        ensures small { AreSmall result }
        ensures empty { self.new ≡ [] }
    {
        self.ids = Ids::new(alloc);
        mem::replace(&mut self.objects, Store::new(alloc)).into_map()
    }
}
