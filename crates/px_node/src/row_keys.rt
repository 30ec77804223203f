//! What rows of references and of objects name: the path of a repository, and what is there.

ghost use Rattle.std.specs.Prelude.{◌≡◌, ℕ, List, Err, IfOk};
ghost use Rattle.px_base.specs.Object.{GitObject};
ghost use Rattle.px_base.specs.RepoPath.{IsRepoPath};
ghost use Rattle.px_base.specs.RefName.{IsRefName};
ghost use Rattle.px_base.specs.declared.hash.Hash.{Hash};
ghost use Rattle.px_node.specs.RowKeys.{TellsObject, TellsRef};

use node_rows::{parts_of, read_id, read_object};
use px_base::{NameFault, Object, ObjectId, RefName, RepoPath};
use px_keeper::NotTaken;
use std::alloc::Global;

/// What a row of table 7 tells: a reference of a repository.
#[derive(Drop)]
pub(crate) struct RefRow {
    /// The path of the repository.
    pub(crate) repo: RepoPath,
    /// The name.
    pub(crate) name: RefName,
    /// The object that it names.
    pub(crate) id: ObjectId,
}

/// What a row of table 8 tells: an object of a repository.
#[derive(Drop)]
pub(crate) struct ObjectRow {
    /// The path of the repository.
    pub(crate) repo: RepoPath,
    /// The id that the object stands under.
    pub(crate) id: ObjectId,
    /// The object.
    pub(crate) object: Object,
}

/// The path that a text is.
pub(crate) fn path_of(alloc: Global, text: &[u8]) -> Result<RepoPath, NotTaken>
    ensures ok { IfOk result (λ path. IsRepoPath text.now × (path ≡ text.now)) }
    ensures bad { result ≡ Err NotTaken.BadRow → ¬ (IsRepoPath text.now) }
{
    match RepoPath::read(alloc, text) {
        Ok(path) => Ok(path),
        Err(NameFault::BadName { .. }) => Err(NotTaken::BadRow),
        Err(NameFault::Memory) => Err(NotTaken::Memory),
    }
}

// The name of a reference that a text is.
fn name_of(alloc: Global, text: &[u8]) -> Result<RefName, NotTaken>
    ensures ok { IfOk result (λ name. IsRefName text.now × (name ≡ text.now)) }
    ensures bad { result ≡ Err NotTaken.BadRow → ¬ (IsRefName text.now) }
{
    match RefName::read(alloc, text) {
        Ok(name) => Ok(name),
        Err(NameFault::BadName { .. }) => Err(NotTaken::BadRow),
        Err(NameFault::Memory) => Err(NotTaken::Memory),
    }
}

/// The reference that a row of table 7 tells.
pub(crate) fn read_ref_row(alloc: Global, key: &[u8], value: &[u8]) -> Result<RefRow, NotTaken>
    ensures ok { IfOk result (λ row. TellsRef key.now value.now row.repo row.name row.id) }
    ensures bad { result ≡ Err NotTaken.BadRow → (path name : List ℕ) (id : Hash)
        → ¬ (TellsRef key.now value.now path name id) }
{
    let Some((path, name)) = parts_of(key) else {
        return Err(NotTaken::BadRow);
    };
    let Some(id) = read_id(value) else {
        return Err(NotTaken::BadRow);
    };
    let repo = path_of(alloc, path)?;
    let name = name_of(alloc, name)?;
    Ok(RefRow { repo, name, id })
}

/// The object that a row of table 8 tells.
pub(crate) fn read_object_row(
    alloc: Global,
    key: &[u8],
    value: &[u8],
) -> Result<ObjectRow, NotTaken>
    ensures ok { IfOk result (λ row. TellsObject key.now value.now row.repo row.id row.object) }
    ensures bad { result ≡ Err NotTaken.BadRow → (path : List ℕ) (id : Hash) (object : GitObject)
        → ¬ (TellsObject key.now value.now path id object) }
{
    let Some((path, id)) = parts_of(key) else {
        return Err(NotTaken::BadRow);
    };
    let Some(id) = read_id(id) else {
        return Err(NotTaken::BadRow);
    };
    let Some(object) = read_object(alloc, value)? else {
        return Err(NotTaken::BadRow);
    };
    let repo = path_of(alloc, path)?;
    Ok(ObjectRow { repo, id, object })
}
