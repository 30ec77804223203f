//! What is answered to an event of a script.

use px_base::{Hash, Lease, RefList};
use px_ops::Reply;

/// What is answered to an event of a script.
#[derive(Drop)]
pub enum Answer {
    /// The reply of the core to an operation, or the refusal of any event. Refused are, beside what an
    /// operation is refused for: `UnknownStorage`, where no storage has the name of the line; `NotOut`,
    /// where the line tells a node what was not issued to it, asks for the apply of a snapshot that is
    /// not kept, or names a repository that is not on record; `Node`, where the node refuses it; and
    /// `NotAcked`, where an operation tells of a node what it did not answer.
    Replied(Reply),
    /// A node did what it was told.
    Done,
    /// The vote of a node on a push.
    Voted(Hash),
    /// The references that a node has of a repository.
    Refs(RefList),
    /// A snapshot was taken, and is kept for a job.
    Snapshot {
        /// How many references it has.
        refs: u64,
        /// How many objects they lead to.
        objects: u64,
    },
    /// A node was fenced: the lease of the last push that it committed, where it did one.
    Last(Option<Lease>),
}
