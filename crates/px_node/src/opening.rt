//! The rows of a keeper, taken over one after the other into replicas.

ghost use Rattle.std.specs.Prelude.{◌≡◌, ℕ, List, Option, Some, Err, OnOk};
ghost use Rattle.px_keeper.specs.Keeper.{IsNext};
ghost use Rattle.px_keeper.specs.Reading.{no_rows};
ghost use Rattle.px_keeper.specs.Row.{Rows, row_key};
ghost use Rattle.node_rows.specs.BadRow.{IsFirstBad, IsGood, IsReplicaRow};
ghost use Rattle.node_rows.specs.Reading.{HasRows, IsReadTo, ObjectComes, RefComes};
ghost use Rattle.px_base.specs.Object.{GitObject};
ghost use Rattle.px_base.specs.declared.hash.Hash.{Hash};
ghost use Rattle.px_node.specs.Opening.{AreTold, TakesObject, TakesRef, TakesReplica};
ghost use Rattle.px_node.specs.Shelf.{place_at};

use crate::replicas::{Replicas, put};
use crate::row_keys::{path_of, read_object_row, read_ref_row};
use node_replica::Replica;
use node_rows::read_replica;
use px_keeper::{NotTaken, TakeRows};
use std::alloc::Global;
use std::collections::BTreeMap;

/// Replicas as the rows tell them that were read.
#[derive(Drop)]
pub(crate) struct Told {
    pub(crate) replicas: Replicas,
}

impl Told {
    /// No row was read yet.
    pub(crate) fn new(alloc: Global) -> Told
        ensures none { HasRows (place_at result.replicas.entries) no_rows }
        ensures told { AreTold result.replicas.entries }
    {
        Told {
            replicas: BTreeMap::new(alloc),
        }
    }
}

impl TakeRows for Told {
    ghost good = { IsGood };

    ghost has = { λ t. HasRows (place_at t.replicas.entries) };

    ghost whole = { λ t. AreTold t.replicas.entries };

    fn take(&mut self, alloc: Global, table: u8, key: &[u8], value: &[u8]) -> Result<(), NotTaken> {
        take_row(alloc, &mut self.replicas, table, key, value)
    }
}

// Takes over what the next row says.
fn take_row(
    alloc: Global,
    replicas: &mut Replicas,
    table: u8,
    key: &[u8],
    value: &[u8],
) -> Result<(), NotTaken>
    requires told { AreTold replicas.old.entries }
    ensures ok { OnOk result ((rows : Rows) (last : Option (List ℕ))
        → IsReadTo rows table last (place_at replicas.old.entries)
        → IsNext rows table last key.now value.now
        → IsReadTo rows table (Some key.now) (place_at replicas.new.entries)) }
    ensures bad { result ≡ Err NotTaken.BadRow → (rows : Rows) (last : Option (List ℕ))
        → IsReadTo rows table last (place_at replicas.old.entries)
        → IsNext rows table last key.now value.now → IsFirstBad rows (row_key table key.now) }
    ensures told { OnOk result (AreTold replicas.new.entries) }
{
    if table == 6 {
        return take_replica(alloc, replicas, key, value);
    }
    if table == 7 {
        return take_ref(alloc, replicas, key, value);
    }
    if table == 8 {
        return take_object(alloc, replicas, key, value);
    }
    Err(NotTaken::BadRow)
}

// Takes over what a row of table 6 says of a repository.
fn take_replica(
    alloc: Global,
    replicas: &mut Replicas,
    key: &[u8],
    value: &[u8],
) -> Result<(), NotTaken>
    requires told { AreTold replicas.old.entries }
    ensures ok { OnOk result (TakesReplica (place_at replicas.old.entries)
        (place_at replicas.new.entries) key.now value.now) }
    ensures bad { result ≡ Err NotTaken.BadRow → ¬ (IsReplicaRow key.now value.now) }
    ensures told { OnOk result (AreTold replicas.new.entries) }
{
    let Some(row) = read_replica(value) else {
        return Err(NotTaken::BadRow);
    };
    let repo = match path_of(alloc, key) {
        Ok(repo) => repo,
        Err(error) => return Err(error),
    };
    let replica = Replica::told(alloc, row);
    replica.is_lawful();
    match put(replicas, repo, replica) {
        Ok(()) => Ok(()),
        Err(_) => Err(NotTaken::Memory),
    }
}

// Takes over the reference that a row of table 7 tells.
fn take_ref(
    alloc: Global,
    replicas: &mut Replicas,
    key: &[u8],
    value: &[u8],
) -> Result<(), NotTaken>
    requires told { AreTold replicas.old.entries }
    ensures ok { OnOk result (TakesRef (place_at replicas.old.entries)
        (place_at replicas.new.entries) key.now value.now) }
    ensures bad { result ≡ Err NotTaken.BadRow → (path name : List ℕ) (id : Hash)
        → ¬ (RefComes (place_at replicas.old.entries) key.now value.now path name id) }
    ensures told { OnOk result (AreTold replicas.new.entries) }
{
    let row = match read_ref_row(alloc, key, value) {
        Ok(row) => row,
        Err(error) => return Err(error),
    };
    match replicas.get_mut(&row.repo) {
        Some(replica) => {
            let taken = replica.take_ref(alloc, row.name, row.id);
            replica.is_lawful();
            taken
        }
        None => Err(NotTaken::BadRow),
    }
}

// Takes over the object that a row of table 8 tells.
fn take_object(
    alloc: Global,
    replicas: &mut Replicas,
    key: &[u8],
    value: &[u8],
) -> Result<(), NotTaken>
    requires told { AreTold replicas.old.entries }
    ensures ok { OnOk result (TakesObject (place_at replicas.old.entries)
        (place_at replicas.new.entries) key.now value.now) }
    ensures bad { result ≡ Err NotTaken.BadRow → (path : List ℕ) (id : Hash) (object : GitObject)
        → ¬ (ObjectComes (place_at replicas.old.entries) key.now value.now path id object) }
    ensures told { OnOk result (AreTold replicas.new.entries) }
{
    let row = match read_object_row(alloc, key, value) {
        Ok(row) => row,
        Err(error) => return Err(error),
    };
    match replicas.get_mut(&row.repo) {
        Some(replica) => {
            let taken = replica.take_object(alloc, &row.id, &row.object);
            replica.is_lawful();
            taken
        }
        None => Err(NotTaken::BadRow),
    }
}
