//! The indexes of the book, which find storages and repositories by their names.

ghost use Rattle.std.specs.Prelude.{◌≡◌, IsSome, OnErr, OnOk};
ghost use Rattle.std.specs.Map.{lookup};
ghost use Rattle.px_base.specs.RefList.{is_name};
ghost use Rattle.px_cluster.specs.Creating.{has_name, is_at_path};
ghost use Rattle.px_cluster.specs.Numbers.{first_of, places_of};
ghost use Rattle.genbook.specs.Index.{AreFound, AreNamed, Puts, PutsAt, PutsBelow, StaysAt, number_at, number_of};
ghost use Rattle.genbook.specs.Places.{checked};

use crate::name::Name;
use crate::{Repository, Storage};
use px_base::{RepoPath, StorageName};
use std::alloc::{AllocError, Global};
use std::collections::BTreeMap;

/// The numbers of storages by their names.
pub(crate) type Names = BTreeMap<Name, u32>;

/// The numbers of repositories by their virtual storages and paths.
pub(crate) type Paths = BTreeMap<Name, Below>;

type Below = BTreeMap<RepoPath, u32>;

/// The number of the storage of a name.
pub(crate) fn storage_named(names: &Names, storages: &[Storage], name: &StorageName) -> Option<u32>
    requires { AreNamed names.now.entries storages.now }
    ensures { result ≡ first_of (places_of (has_name name.now) storages.now) }
{
    checked_name(storages, number_of(names, name), name)
}

/// The number of the repository of a virtual storage and a path.
pub(crate) fn repository_at(
    paths: &Paths,
    repositories: &[Repository],
    virt: &StorageName,
    path: &RepoPath,
) -> Option<u32>
    requires { AreFound paths.now.entries repositories.now }
    ensures { result ≡ first_of (places_of (is_at_path virt.now path.now) repositories.now) }
{
    checked_path(repositories, number_at(paths, virt, path), virt, path)
}

// The number, where it is that of a storage of this name. The index may have one that never came.
fn checked_name(storages: &[Storage], number: Option<u32>, name: &StorageName) -> Option<u32>
    ensures { result ≡ checked (has_name name.now) storages.now number }
{
    let number = number?;
    let storage = storages.get(number as usize)?;
    if storage.name.as_bytes() == name.as_bytes() {
        Some(number)
    } else {
        None
    }
}

// The number, where it is that of a repository of this virtual storage and path.
fn checked_path(
    repositories: &[Repository],
    number: Option<u32>,
    virt: &StorageName,
    path: &RepoPath,
) -> Option<u32>
    ensures { result ≡ checked (is_at_path virt.now path.now) repositories.now number }
{
    let number = number?;
    let repository = repositories.get(number as usize)?;
    if repository.is_at(virt, path) {
        Some(number)
    } else {
        None
    }
}

/// Puts a number under a name.
pub(crate) fn put_name(names: &mut Names, name: &StorageName, number: u32) -> Result<(), AllocError>
    ensures ok { OnOk result (Puts names.old.entries names.new.entries name.now number) }
    ensures err { OnErr result (names.new.entries ≡ names.old.entries) }
{
    match names.insert(Name::of(name), number) {
        Ok(_) => Ok(()),
        Err(_) => Err(AllocError),
    }
}

// The number under a name.
fn number_of(names: &Names, name: &StorageName) -> Option<u32>
    ensures { result ≡ number_of names.now.entries name.now }
{
    let key = Name::of(name);
    names.get(&key).copied()
}

// The number under a virtual storage and a path.
fn number_at(paths: &Paths, virt: &StorageName, path: &RepoPath) -> Option<u32>
    ensures { result ≡ number_at paths.now.entries virt.now path.now }
{
    let key = Name::of(virt);
    match paths.get(&key) {
        Some(below) => below.get(path).copied(),
        None => None,
    }
}

/// Puts a number under a virtual storage and a path.
pub(crate) fn put(
    alloc: Global,
    paths: &mut Paths,
    virt: &StorageName,
    path: RepoPath,
    number: u32,
) -> Result<(), AllocError>
    ensures ok { OnOk result (PutsAt paths.old.entries paths.new.entries virt.now path number) }
    ensures err { OnErr result (StaysAt paths.old.entries paths.new.entries) }
{
    make_room(alloc, paths, virt)?;
    put_below(paths, virt, path, number)
}

// Makes room for the paths of a virtual storage.
fn make_room(alloc: Global, paths: &mut Paths, virt: &StorageName) -> Result<(), AllocError>
    ensures stays { StaysAt paths.old.entries paths.new.entries }
    ensures room { OnOk result (IsSome (lookup (is_name virt.now) paths.new.entries)) }
{
    let key = Name::of(virt);
    if !paths.contains_key(&key) {
        put_virtual(paths, key, BTreeMap::new(alloc))?;
    }
    Ok(())
}

fn put_virtual(paths: &mut Paths, virt: Name, below: Below) -> Result<(), AllocError>
    ensures ok { OnOk result (PutsBelow paths.old.entries paths.new.entries virt below) }
    ensures err { OnErr result (paths.new.entries ≡ paths.old.entries) }
{
    match paths.insert(virt, below) {
        Ok(_) => Ok(()),
        Err(_) => Err(AllocError),
    }
}

fn put_below(
    paths: &mut Paths,
    virt: &StorageName,
    path: RepoPath,
    number: u32,
) -> Result<(), AllocError>
    requires { IsSome (lookup (is_name virt.now) paths.old.entries) }
    ensures ok { OnOk result (PutsAt paths.old.entries paths.new.entries virt.now path number) }
    ensures err { OnErr result (StaysAt paths.old.entries paths.new.entries) }
{
    let key = Name::of(virt);
    match paths.get_mut(&key) {
        Some(below) => put_path(below, path, number),
        None => Ok(()),
    }
}

fn put_path(below: &mut Below, path: RepoPath, number: u32) -> Result<(), AllocError>
    ensures ok { OnOk result (Puts below.old.entries below.new.entries path number) }
    ensures err { OnErr result (below.new.entries ≡ below.old.entries) }
{
    match below.insert(path, number) {
        Ok(_) => Ok(()),
        Err(_) => Err(AllocError),
    }
}
