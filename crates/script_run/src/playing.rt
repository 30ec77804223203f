//! One line of a script: what the machine does, and what goes out.

ghost use Rattle.script_run.specs.Play.{Plays};
ghost use Rattle.script_run.specs.Stream.{stream};

use crate::{Act, StateMachine};
use px_base::{Bytes, Sink, WrittenEnd, write_all};
use std::alloc::Global;

/// What a line came to.
#[derive(Clone, Copy)]
pub(crate) enum Play {
    /// It asks nothing, or its event was done and all of its reply went out.
    Done,
    /// No event is asked so.
    Bad,
    /// Its event was done, and the sink failed before all of the reply went out.
    WriteFault,
    /// Memory wanted, and nothing went out.
    Memory,
}

/// Lets the machine do what a line asks, and hands what is printed of it to the sink, in writes of its own. The text that is
/// lent is where that is made, in place of what was there.
pub(crate) fn play_line<M: StateMachine, O: Sink>(
    alloc: Global,
    machine: &mut M,
    line: &[u8],
    text: &mut Bytes,
    out: &mut O,
) -> Play
    ensures { Plays M.machine (M.state machine.old) (M.state machine.new)
        (stream (O.taken out.old) (O.write_faults out.old))
        (stream (O.taken out.new) (O.write_faults out.new)) line.now result }
{
    text.clear();
    match machine.act(alloc, line, text) {
        Act::Nothing => Play::Done,
        Act::Prints => match write_all(out, text.as_slice()) {
            WrittenEnd::All => Play::Done,
            WrittenEnd::Failed => Play::WriteFault,
        },
        Act::Bad => Play::Bad,
        Act::Memory => Play::Memory,
    }
}
