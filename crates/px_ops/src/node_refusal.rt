//! Why a node does not do what it is told.

ghost use Rattle.std.specs.Prelude.{◌≡◌};

use px_base::{Hash, ObjectId, RefName};

/// Why a node does not do what it is told. A call is refused with the first cause that holds, in the
/// order that its table has (docs/generations_and_leases.md).
#[derive(Debug, Drop, PartialEq, Eq)]
pub enum NodeRefusal {
    /// The lease is below the fence of the repository.
    Fenced {
        /// The fence: the least lease that an effect may carry.
        fence: u64,
    },
    /// The repository is not held.
    NoRepo,
    /// The repository is held with references.
    RepoExists,
    /// No push of that lease is ready.
    NotPrepared,
    /// The verdict is on another hash than the push that is ready has.
    VoteDiffers {
        /// The vote on the push that is ready.
        have: Hash,
    },
    /// The list of updates is empty.
    Empty,
    /// Both objects of an update are zero.
    Void {
        /// The name.
        name: RefName,
    },
    /// An update names what an earlier one does.
    Twice {
        /// The name.
        name: RefName,
    },
    /// The old object of an update is not what the reference names.
    Stale {
        /// The name.
        name: RefName,
        /// What the reference names, which is the zero name where it does not exist.
        have: ObjectId,
    },
    /// Once all updates were done, a name of the list would be in conflict with another reference.
    Conflict {
        /// The first such name of the list.
        name: RefName,
        /// The least name that it is in conflict with.
        with: RefName,
    },
    /// Once all updates were done, there would be too many references.
    TooManyRefs,
    /// An object that a new reference leads to is not there.
    Missing {
        /// The first one that the walk takes.
        id: ObjectId,
    },
    /// The content of an object that came breaks the form of its kind.
    BadObject {
        /// The place of the object in its list, from 0.
        index: usize,
        /// The first byte that breaks it, from 0, or the length where the content ends too early.
        at: usize,
    },
    /// An object that came has the name of another one, with other bytes or another kind.
    Collision {
        /// The name.
        id: ObjectId,
    },
}
