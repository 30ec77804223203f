//! Batches that are handed to a keeper.

ghost use Rattle.std.specs.Prelude.{◌≡◌, None, IfErr, OnOk, OnErr};
ghost use Rattle.objstore.specs.Bundle.{bundle_fault, with_objects};
ghost use Rattle.objstore.specs.Entries.{AreSmall, IsStore};
ghost use Rattle.refstore.specs.Stages.{IsOnTheWay, sets_of};
ghost use Rattle.refstore.specs.Updates.{Fits, after};
ghost use Rattle.node_calls.specs.Ends.{NodeHasCause};
ghost use Rattle.node_replica.specs.Checks.{IsNoRefusal};
ghost use Rattle.node_replica.specs.Kept.{Keeps};

use node_calls::NodeError;
use objstore::{ObjectMap, Quarantine, Store};
use px_base::Update;
use px_keeper::{Batch, KeepFault, Keeper};
use refstore::{RefMap, Refs};
use std::alloc::Global;
use std::mem;

/// Hands a batch to the keeper.
pub fn keep<K: Keeper>(keeper: &mut K, batch: Batch) -> Result<(), NodeError>
    ensures ok { OnOk result (Keeps batch (K.rows keeper.old) (K.rows keeper.new)) }
    ensures err { OnErr result (K.rows keeper.new ≡ K.rows keeper.old) }
    ensures known { IfErr result IsNoRefusal }
    ensures cause { NodeHasCause (K.keep_faults keeper.old) (K.keep_faults keeper.new) result }
{
    match keeper.commit(batch) {
        Ok(()) => Ok(()),
        Err(KeepFault::Failed) => Err(NodeError::Fault),
        Err(KeepFault::Memory) => Err(NodeError::Memory),
    }
}

/// Hands a batch to the keeper, and moves objects from quarantine to a store. What takes memory is done
/// before the keeper has the batch. Where that cannot be, the store and the quarantine stay.
pub(crate) fn keep_with<K: Keeper>(
    alloc: Global,
    keeper: &mut K,
    batch: Batch,
    store: &mut Store,
    objects: &mut Quarantine,
) -> Result<(), NodeError>
    requires comes { bundle_fault store.old 0 objects.old ≡ None }
    ensures ok { OnOk result (store.new ≡ with_objects store.old objects.old) }
    ensures kept { OnOk result (Keeps batch (K.rows keeper.old) (K.rows keeper.new)) }
    ensures err { OnErr result (store.new ≡ store.old) }
    ensures err_objects { OnErr result (objects.new ≡ objects.old) }
    ensures err_rows { OnErr result (K.rows keeper.new ≡ K.rows keeper.old) }
    ensures known { IfErr result IsNoRefusal }
    ensures cause { NodeHasCause (K.keep_faults keeper.old) (K.keep_faults keeper.new) result }
{
    let mut map = mem::replace(store, Store::new(alloc)).into_map();
    let kept = keep_in_room(alloc, keeper, batch, &mut map, objects);
    *store = Store::of_map(map);
    kept
}

// Makes room in a map, hands a batch to the keeper, and fills the room. Where that cannot be, the map
// and the quarantine stay.
fn keep_in_room<K: Keeper>(
    alloc: Global,
    keeper: &mut K,
    batch: Batch,
    map: &mut ObjectMap,
    objects: &mut Quarantine,
) -> Result<(), NodeError>
    requires store { IsStore map.old }
    requires small { AreSmall map.old }
    requires comes { bundle_fault map.old 0 objects.old ≡ None }
    ensures ok { OnOk result (map.new ≡ with_objects map.old objects.old) }
    ensures store { IsStore map.new × AreSmall map.new }
    ensures kept { OnOk result (Keeps batch (K.rows keeper.old) (K.rows keeper.new)) }
    ensures err { OnErr result (map.new ≡ map.old) }
    ensures err_objects { OnErr result (objects.new ≡ objects.old) }
    ensures err_rows { OnErr result (K.rows keeper.new ≡ K.rows keeper.old) }
    ensures known { IfErr result IsNoRefusal }
    ensures cause { NodeHasCause (K.keep_faults keeper.old) (K.keep_faults keeper.new) result }
{
    let made = map.make_room(alloc, objects.names())?;
    if let Err(error) = keep(keeper, batch) {
        map.take_back(made.as_slice());
        return Err(error);
    }
    map.fill(alloc, objects);
    Ok(())
}

/// Does the updates of a push, moves its objects to a store, and hands a batch to the keeper. What takes
/// memory is done before the keeper has the batch, and the rest once it has kept it. Where that cannot
/// be, the references, the store and the quarantine stay.
pub(crate) fn keep_push<K: Keeper>(
    alloc: Global,
    keeper: &mut K,
    batch: Batch,
    refs: &mut Refs,
    store: &mut Store,
    updates: &[Update],
    objects: &mut Quarantine,
) -> Result<(), NodeError>
    requires fits { Fits updates.now refs.old }
    requires comes { bundle_fault store.old 0 objects.old ≡ None }
    ensures ok { OnOk result (refs.new ≡ after refs.old updates.now) }
    ensures store { OnOk result (store.new ≡ with_objects store.old objects.old) }
    ensures kept { OnOk result (Keeps batch (K.rows keeper.old) (K.rows keeper.new)) }
    ensures err { OnErr result (refs.new ≡ refs.old) }
    ensures err_store { OnErr result (store.new ≡ store.old) }
    ensures err_objects { OnErr result (objects.new ≡ objects.old) }
    ensures err_rows { OnErr result (K.rows keeper.new ≡ K.rows keeper.old) }
    ensures known { IfErr result IsNoRefusal }
    ensures cause { NodeHasCause (K.keep_faults keeper.old) (K.keep_faults keeper.new) result }
{
    let mut map = mem::replace(refs, Refs::new(alloc)).into_map();
    match keep_sets(alloc, keeper, batch, &mut map, store, updates, objects) {
        Ok(()) => {
            map.remove_all(updates);
            *refs = Refs::of_map(map);
            Ok(())
        }
        Err(error) => {
            map.take_back(updates);
            *refs = Refs::of_map(map);
            Err(error)
        }
    }
}

// Does those of the updates that give a name an object, moves objects to a store, and hands a batch to
// the keeper. Where that cannot be, the store and the quarantine stay, and the map is on its way.
fn keep_sets<K: Keeper>(
    alloc: Global,
    keeper: &mut K,
    batch: Batch,
    map: &mut RefMap,
    store: &mut Store,
    updates: &[Update],
    objects: &mut Quarantine,
) -> Result<(), NodeError>
    requires comes { bundle_fault store.old 0 objects.old ≡ None }
    ensures ok { OnOk result (map.new ≡ after map.old (sets_of updates.now)) }
    ensures way { IsOnTheWay map.old map.new updates.now }
    ensures store { OnOk result (store.new ≡ with_objects store.old objects.old) }
    ensures kept { OnOk result (Keeps batch (K.rows keeper.old) (K.rows keeper.new)) }
    ensures err_store { OnErr result (store.new ≡ store.old) }
    ensures err_objects { OnErr result (objects.new ≡ objects.old) }
    ensures err_rows { OnErr result (K.rows keeper.new ≡ K.rows keeper.old) }
    ensures known { IfErr result IsNoRefusal }
    ensures cause { NodeHasCause (K.keep_faults keeper.old) (K.keep_faults keeper.new) result }
{
    map.set_all(alloc, updates)?;
    keep_with(alloc, keeper, batch, store, objects)
}
