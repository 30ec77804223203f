//! Why an operation is refused.

use crate::{JobState, NodeRefusal};
use px_base::{Gen, Hash, JobId, Lease, Phase, RepoId, StorageId, StorageName, TxId};

/// Why an operation, or a line of a script, is not done. It then changes nothing. Of several causes
/// the first counts, in the order that the operation has.
#[derive(Debug, Drop, PartialEq, Eq)]
pub enum Refusal {
    /// No repository has this number, or this path.
    UnknownRepo,
    /// No storage has this name or number, or the one that has it is of another virtual storage than
    /// the repository. The name, or none where no storage has the number.
    UnknownStorage(Option<StorageName>),
    /// No storage is of the virtual storage of this name.
    UnknownVirtual(StorageName),
    /// The path is that of this repository, and some storage has a replica of it.
    Exists(RepoId),
    /// The name is that of this storage.
    StorageExists(StorageId),
    /// The virtual storage has 64 storages, or no number is left.
    TooManyStorages,
    /// No number of a repository is left.
    TooManyRepositories,
    /// The factor is above the number of storages of the virtual storage, which is this, or it is 0
    /// where 0 stands for nothing.
    BadFactor(u32),
    /// A panel without voters.
    NoVoters,
    /// A panel of more than 64 voters, with their number.
    TooManyVoters(usize),
    /// A panel that names a voter twice, with the first name that an earlier voter has.
    DuplicateVoter(StorageName),
    /// A threshold that is above the total weight, or of which twice is not above it.
    BadThreshold {
        /// The weight of all voters.
        total: u64,
        /// The threshold that was asked for.
        threshold: u64,
    },
    /// A number of rounds that is not from 1 to 8.
    BadRounds(u32),
    /// The last number of a transaction, 2^64 - 1, was given.
    TransactionsSpent,
    /// No transaction has this number.
    UnknownTx(TxId),
    /// The panel of the transaction has no voter of this name.
    NotAVoter(StorageName),
    /// The voter is committed in each subtransaction, and nothing more is asked of it.
    Finished,
    /// The voter's current subtransaction belongs to this phase, and the vote is for the other.
    WrongPhase(Phase),
    /// The voter is canceled in its current subtransaction.
    Canceled,
    /// The voter's current subtransaction was stopped.
    Stopped,
    /// The voter voted in its current subtransaction before, for this hash.
    AlreadyVoted(Hash),
    /// The voter has failed in its current subtransaction, or, for a stop, none is open.
    Decided,
    /// The transaction has no subtransaction of this number.
    NoSub(u32),
    /// The transaction is that of a push, which is ended and not closed.
    IsPush,
    /// The transaction is not that of a push.
    NotAPush,
    /// The push is not decided yet, or it is, and the votes on what was committed are not.
    StillOpen,
    /// The push of this transaction has the turn.
    Turn(TxId),
    /// No healthy assigned storage holds the newest generation.
    ReadOnly {
        /// The newest generation.
        newest: Gen,
        /// How many storages hold it, healthy or not.
        current: u32,
    },
    /// The last lease of the repository, 2^64 - 2, was drawn.
    LeasesSpent,
    /// The newest generation is the last one, 2^64 - 1.
    GenerationsSpent,
    /// The lease is not the last one that was drawn for that storage, or for that job.
    LeaseLost {
        /// The last one that was drawn.
        kept: Lease,
        /// The one that was given.
        given: Lease,
    },
    /// The lease is the last one that was drawn for the storage, but not to make a replica.
    NotMaking,
    /// Nothing is booked of the storage.
    NotBooked,
    /// The storage is not in doubt.
    NotInDoubt,
    /// No job has this number.
    UnknownJob(JobId),
    /// Nobody works at the job. It is in this state.
    BadState(JobState),
    /// The push of this transaction is decided, and no storage is known to have committed it yet.
    InFlight(TxId),
    /// No healthy storage holds the newest generation.
    NoCurrentReplica {
        /// The newest generation.
        newest: Gen,
        /// How many storages hold it, healthy or not.
        current: u32,
    },
    /// A node refuses what it is told.
    Node(NodeRefusal),
    /// What a line of a script tells a node was never to be told, or names what is not there.
    NotOut,
    /// What a line of a script tells of a node is not what the node answered.
    NotAcked,
}
