//! Why a call on a transaction is refused.

use px_base::{Hash, Phase, StorageName, TxId};

/// Why a transaction was not registered, in the order in which the causes are tested.
#[derive(Clone, Copy, Debug, PartialEq, Eq)]
pub enum RegisterRefusal {
    /// The number of rounds is not from 1 to 8.
    BadRounds {
        /// How many were asked for.
        n: u32,
    },
    /// Memory wants.
    Memory,
}

/// Why a call on a transaction was refused, in the order in which the causes are tested. Each call
/// answers some of them. A refused call changes nothing.
#[derive(Clone, Copy, Debug, PartialEq, Eq)]
pub enum TxRefusal {
    /// No transaction with this number is registered.
    UnknownTx(TxId),
    /// The panel of the transaction has no voter of this name.
    NotAVoter(StorageName),
    /// The voter is committed in each subtransaction, and nothing more is asked of it.
    Finished,
    /// The voter's current subtransaction belongs to another phase.
    WrongPhase {
        /// The phase that the voter has to vote in.
        due: Phase,
    },
    /// The voter is canceled in its current subtransaction.
    Canceled,
    /// The voter's current subtransaction was stopped.
    Stopped,
    /// The voter voted in its current subtransaction before, for this hash.
    AlreadyVoted(Hash),
    /// The voter has failed in its current subtransaction, or, for a stop, none is open.
    Decided,
    /// The transaction has no subtransaction of this number.
    NoSub(u32),
}
