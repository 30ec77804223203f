//! A repository as it is handed on.

use px_base::{Objects, RefList};

/// The references of a repository, and the objects that they lead to.
#[derive(Drop)]
pub struct Snapshot {
    /// The references.
    pub refs: RefList,
    /// The objects, each once, in the order in which a walk from the references takes them.
    pub objects: Objects,
}
