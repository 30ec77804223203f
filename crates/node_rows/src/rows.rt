//! The changes of the rows of a repository that each effect makes.

ghost use Rattle.std.specs.Prelude.{◌≡◌, ◌∷◌, ◌++◌, [], Some, None, IfOk, OnOk};
ghost use Rattle.std.specs.Map.{keys_of};
ghost use Rattle.node_rows.specs.Rows.{under};
ghost use Rattle.objstore.specs.Entries.{own_name};
ghost use Rattle.node_rows.specs.Writes.{coming_changes, object_change, objects_gone, ref_change, refs_changes, gone_changes, put_changes, names, replica_change, update_changes};
ghost use Rattle.px_base.specs.RefList.{ref_at};
ghost use Rattle.px_base.specs.RepoPath.{IsRepoPath};

use objstore::{Quarantine, Store};
use px_base::{Bytes, Lease, Object, ObjectId, RefName, RepoPath, Update};
use px_fields::{add_flag, add_kind, add_optional_u64, add_u64};
use px_keeper::{Batch, RowKey};
use refstore::Refs;
use std::alloc::{AllocError, Global};

/// The table of fences, last leases, and what is held, by path.
const REPLICAS: u8 = 6;

/// The table of references, by path and name.
const REFS: u8 = 7;

/// The table of objects, by path and id.
const OBJECTS: u8 = 8;

// The path, a NUL and what is named there.
fn key_of(alloc: Global, repo: &RepoPath, rest: &[u8]) -> Result<Bytes, AllocError>
    ensures { IfOk result (λ key. key ≡ under repo.now rest.now) }
{
    let mut key = Bytes::from_slice(alloc, repo.as_bytes())?;
    key.push(0)?;
    key.extend_from_slice(rest)?;
    Ok(key)
}

/// The batch that begins with the row of a repository: its fence, its last lease, and whether it is
/// held.
pub fn begun(
    alloc: Global,
    repo: &RepoPath,
    fence: u64,
    last: Option<Lease>,
    held: bool,
) -> Result<Batch, AllocError>
    ensures batch { IfOk result (λ batch. batch ≡ replica_change repo.now fence last held ∷ []) }
    ensures path { OnOk result (IsRepoPath repo.now) }
{
    let last = match last {
        Some(lease) => Some(lease.number()),
        None => None,
    };
    let mut value = Bytes::new(alloc);
    add_u64(&mut value, fence)?;
    add_optional_u64(&mut value, last)?;
    add_flag(&mut value, held)?;
    let mut batch = Batch::new(alloc);
    batch.put(alloc, REPLICAS, repo.as_bytes(), value.as_slice())?;
    Ok(batch)
}

fn put_ref(
    alloc: Global,
    batch: &mut Batch,
    repo: &RepoPath,
    name: &RefName,
    id: &ObjectId,
) -> Result<(), AllocError>
    ensures { OnOk result
        (batch.new ≡ batch.old ++ ref_change repo.now name.now (Some id.now) ∷ []) }
{
    let key = key_of(alloc, repo, name.as_bytes())?;
    batch.put(alloc, REFS, key.as_slice(), &id.0)
}

fn remove_ref(
    alloc: Global,
    batch: &mut Batch,
    repo: &RepoPath,
    name: &RefName,
) -> Result<(), AllocError>
    ensures { OnOk result (batch.new ≡ batch.old ++ ref_change repo.now name.now None ∷ []) }
{
    let key = key_of(alloc, repo, name.as_bytes())?;
    batch.remove(alloc, REFS, key.as_slice())
}

// Puts an object under its name. Its content is copied once.
fn put_object(
    alloc: Global,
    batch: &mut Batch,
    repo: &RepoPath,
    id: ObjectId,
    object: &Object,
) -> Result<(), AllocError>
    requires { id ≡ own_name object.now }
    ensures { OnOk result (batch.new ≡ batch.old ++ object_change repo.now object.now ∷ []) }
{
    let row = RowKey {
        table: OBJECTS,
        key: key_of(alloc, repo, &id.0)?,
    };
    let mut value = Bytes::new(alloc);
    add_kind(&mut value, object.kind())?;
    value.extend_from_slice(object.content())?;
    batch.put_row(row, value)
}

// Adds what an update changes.
fn change_ref(
    alloc: Global,
    batch: &mut Batch,
    repo: &RepoPath,
    update: &Update,
) -> Result<(), AllocError>
    ensures { OnOk result
        (batch.new ≡ batch.old ++ update_changes repo.now (update.now ∷ [])) }
{
    if update.new == update.old {
        return Ok(());
    }
    if update.new.is_zero() {
        return remove_ref(alloc, batch, repo, &update.name);
    }
    put_ref(alloc, batch, repo, &update.name, &update.new)
}

// Adds what updates change.
fn add_updates(
    alloc: Global,
    batch: &mut Batch,
    repo: &RepoPath,
    updates: &[Update],
) -> Result<(), AllocError>
    ensures { OnOk result (batch.new ≡ batch.old ++ update_changes repo.now updates.now) }
{
    for update in updates {
        change_ref(alloc, batch, repo, update)?;
    }
    Ok(())
}

/// Adds the objects in quarantine that the store does not have.
pub fn add_objects(
    alloc: Global,
    batch: &mut Batch,
    repo: &RepoPath,
    store: &Store,
    objects: &Quarantine,
) -> Result<(), AllocError>
    ensures { OnOk result
        (batch.new ≡ batch.old ++ coming_changes repo.now store.now objects.now) }
{
    for at in 0..objects.len() {
        if let Some((id, object)) = objects.get(at) {
            add_object(alloc, batch, repo, store, id, object)?;
        }
    }
    Ok(())
}

// Adds an object that the store does not have, under its name.
fn add_object(
    alloc: Global,
    batch: &mut Batch,
    repo: &RepoPath,
    store: &Store,
    id: ObjectId,
    object: &Object,
) -> Result<(), AllocError>
    requires { id ≡ own_name object.now }
    ensures { OnOk result
        (batch.new ≡ batch.old ++ coming_changes repo.now store.now (object.now ∷ [])) }
{
    if store.get(&id).is_none() {
        put_object(alloc, batch, repo, id, object)?;
    }
    Ok(())
}

/// Adds what a push with these updates and these objects changes.
pub fn add_push(
    alloc: Global,
    batch: &mut Batch,
    repo: &RepoPath,
    store: &Store,
    updates: &[Update],
    objects: &Quarantine,
) -> Result<(), AllocError>
    ensures { OnOk result (batch.new ≡ batch.old ++ update_changes repo.now updates.now
        ++ coming_changes repo.now store.now objects.now) }
{
    add_updates(alloc, batch, repo, updates)?;
    add_objects(alloc, batch, repo, store, objects)
}

/// Adds what changes where some references take the place of others.
pub fn add_refs(
    alloc: Global,
    batch: &mut Batch,
    repo: &RepoPath,
    old: &Refs,
    new: &Refs,
) -> Result<(), AllocError>
    ensures { OnOk result (batch.new ≡ batch.old ++ refs_changes repo.now old.now new.now) }
{
    remove_gone(alloc, batch, repo, old, new)?;
    put_new(alloc, batch, repo, old, new)
}

// Adds that the references go that are not among the new ones.
fn remove_gone(
    alloc: Global,
    batch: &mut Batch,
    repo: &RepoPath,
    old: &Refs,
    new: &Refs,
) -> Result<(), AllocError>
    ensures { OnOk result (batch.new ≡ batch.old ++ gone_changes repo.now new.now old.now) }
{
    let list = old.list(alloc)?;
    remove_each(alloc, batch, repo, list.as_slice(), new)
}

// Adds that those of the references go that are not among the new ones.
fn remove_each(
    alloc: Global,
    batch: &mut Batch,
    repo: &RepoPath,
    old: &[(RefName, ObjectId)],
    new: &Refs,
) -> Result<(), AllocError>
    ensures { OnOk result (batch.new ≡ batch.old ++ gone_changes repo.now new.now old.now) }
{
    for (name, _) in old {
        if new.get(name).is_none() {
            remove_ref(alloc, batch, repo, name)?;
        }
    }
    Ok(())
}

// Adds the new references that are not there, or name another object there.
fn put_new(
    alloc: Global,
    batch: &mut Batch,
    repo: &RepoPath,
    old: &Refs,
    new: &Refs,
) -> Result<(), AllocError>
    ensures { OnOk result (batch.new ≡ batch.old ++ put_changes repo.now old.now new.now) }
{
    let list = new.list(alloc)?;
    put_each(alloc, batch, repo, old, list.as_slice())
}

// Adds those of the references that are not among the old ones, or name another object there.
fn put_each(
    alloc: Global,
    batch: &mut Batch,
    repo: &RepoPath,
    old: &Refs,
    new: &[(RefName, ObjectId)],
) -> Result<(), AllocError>
    ensures { OnOk result (batch.new ≡ batch.old ++ put_changes repo.now old.now new.now) }
{
    for (name, id) in new {
        if !has(old, name, id) {
            put_ref(alloc, batch, repo, name, id)?;
        }
    }
    Ok(())
}

// Whether the reference names this object.
fn has(refs: &Refs, name: &RefName, id: &ObjectId) -> bool
    ensures { result ≡ names (ref_at refs.now name.now) id.now }
{
    match refs.get(name) {
        Some(have) => have == *id,
        None => false,
    }
}

/// Adds that all objects of a store go.
pub fn remove_objects(
    alloc: Global,
    batch: &mut Batch,
    repo: &RepoPath,
    store: &Store,
) -> Result<(), AllocError>
    ensures { OnOk result (batch.new ≡ batch.old ++ objects_gone repo.now (keys_of store.now)) }
{
    let list = store.ids(alloc)?;
    let ids = list.as_slice();
    for id in ids {
        let key = key_of(alloc, repo, &id.0)?;
        batch.remove(alloc, OBJECTS, key.as_slice())?;
    }
    Ok(())
}
