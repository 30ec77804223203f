//! The book: what is recorded of each repository and of its replicas.
#![tactic(auto)]

mod admission;
mod book;
mod change;
mod creation;
mod fault;
mod health;
mod index;
mod name;
mod ready;
mod replica;
mod replicas;
mod repository;
mod storage;

pub use admission::{Admission, Longer};
pub use book::Book;
pub use change::Change;
pub use creation::Creation;
pub use fault::BookFault;
pub use health::Health;
pub use ready::Ready;
pub use replica::Replica;
pub use repository::Repository;
pub use storage::Storage;
