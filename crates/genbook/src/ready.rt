//! What is ready to come onto the book.

use px_base::{RepoPath, StorageName};

/// What is ready to come onto the book, so that it takes no memory then.
#[derive(Drop)]
pub enum Ready {
    /// Nothing.
    Nothing,
    /// A new repository.
    Repository {
        /// Its virtual storage.
        virt: StorageName,
        /// Its path.
        path: RepoPath,
    },
    /// A new storage.
    Storage {
        /// Its name.
        name: StorageName,
    },
}
