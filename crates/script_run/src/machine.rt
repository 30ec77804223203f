//! A machine that the lines of a script drive.

ghost use Rattle.script_run.specs.Acts.{Acts};
ghost use Rattle.script_run.specs.Machine.{IsDetermined, Machine};

use px_base::Bytes;
use std::alloc::Global;

/// What a line came to at a machine.
#[derive(Clone, Copy, Debug, PartialEq, Eq)]
pub enum Act {
    /// The line asks nothing, as an empty one or a comment.
    Nothing,
    /// The line asks an event, which was done, and the line that is printed of it was added to the text.
    Prints,
    /// No event is asked by such a line.
    Bad,
    /// Memory wanted.
    Memory,
}

/// A machine whose events are asked by the lines of a script.
pub trait StateMachine {
    /// What a line may ask.
    type Event;

    /// What the machine answers.
    type Reply;

    /// What a state of the machine is, as contracts see it.
    ghost State: { Type 0 };

    /// The state that the machine is in.
    ghost state: { Self → State };

    /// What the events of the machine may do.
    ghost machine: { Machine State Self.Event Self.Reply };

    /// Does what a line asks, and adds what is printed of it to a text that is lent. Where nothing is printed, a part may
    /// have been added.
    fn act(&mut self, alloc: Global, line: &[u8], text: &mut Bytes) -> Act
        ensures { Acts machine (state self.old) (state self.new) line.now text.old text.new result };

    /// A law: an event has one answer in each state, and leads to one.
    ghost one_answer: { IsDetermined machine };
}
