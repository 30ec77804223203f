//! Answers that several events have.

ghost use Rattle.std.specs.Prelude.{◌≡◌, Some};
ghost use Rattle.px_ops.specs.declared.refusal.Refusal.TheVariants as refusal;
ghost use Rattle.px_ops.specs.declared.reply.Reply.TheVariants as reply;
ghost use Rattle.script_rules.specs.declared.answer.Answer.TheVariants.{Replied};
ghost use Rattle.px_world.specs.Answers.{IsRefusal};

use nodes::NodeFault;
use px_base::StorageName;
use px_ops::{Refusal, Reply};
use script_rules::Answer;
use std::alloc::AllocError;

/// A refusal.
pub(crate) fn refused(why: Refusal) -> Answer
    ensures { result ≡ Replied (reply.Refused why) }
{
    Answer::Replied(Reply::Refused(why))
}

/// No storage has the name.
pub(crate) fn unknown(name: &StorageName) -> Answer
    ensures { result ≡ Replied (reply.Refused (refusal.UnknownStorage (Some name.now))) }
{
    refused(Refusal::UnknownStorage(Some(*name)))
}

/// The node refuses it; or memory wants there.
pub(crate) fn refused_by(fault: NodeFault) -> Result<Answer, AllocError>
    ensures { IsRefusal fault result }
{
    match fault {
        NodeFault::Refused(why) => Ok(refused(Refusal::Node(why))),
        NodeFault::Memory => Err(AllocError),
    }
}
