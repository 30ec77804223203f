//! The refusals of a panel and of a transaction, as those of an operation.

ghost use Rattle.std.specs.Prelude.{◌≡◌, None, Some, IfOk, OnErr};
ghost use Rattle.std.specs.Option.{option_map};
ghost use Rattle.px_ops.specs.declared.reply.Reply.TheVariants as reply;
ghost use Rattle.px_cluster.specs.Refusals.{of_panel, of_transaction};

use px_ops::{Refusal, Reply};
use std::alloc::AllocError;
use txmanager::TxRefusal;
use voters::PanelRefusal;

/// Why a call on a transaction was refused.
pub(crate) fn of_transaction(refusal: TxRefusal) -> Refusal
    ensures { result ≡ of_transaction refusal }
{
    match refusal {
        TxRefusal::UnknownTx(tx) => Refusal::UnknownTx(tx),
        TxRefusal::NotAVoter(name) => Refusal::NotAVoter(name),
        TxRefusal::Finished => Refusal::Finished,
        TxRefusal::WrongPhase { due } => Refusal::WrongPhase(due),
        TxRefusal::Canceled => Refusal::Canceled,
        TxRefusal::Stopped => Refusal::Stopped,
        TxRefusal::AlreadyVoted(hash) => Refusal::AlreadyVoted(hash),
        TxRefusal::Decided => Refusal::Decided,
        TxRefusal::NoSub(sub) => Refusal::NoSub(sub),
    }
}

/// What is answered where there is no such panel.
pub(crate) fn refused_panel(refusal: PanelRefusal) -> Result<Reply, AllocError>
    ensures reply { IfOk result (λ answer.
        option_map reply.Refused (of_panel (Some refusal)) ≡ Some answer) }
    ensures memory { OnErr result (of_panel (Some refusal) ≡ None) }
{
    Ok(Reply::Refused(match refusal {
        PanelRefusal::NoVoters => Refusal::NoVoters,
        PanelRefusal::TooManyVoters { n } => Refusal::TooManyVoters(n),
        PanelRefusal::DuplicateVoter { name } => Refusal::DuplicateVoter(name),
        PanelRefusal::BadThreshold { total, threshold } => {
            Refusal::BadThreshold { total, threshold }
        }
        PanelRefusal::Memory => return Err(AllocError),
    }))
}
