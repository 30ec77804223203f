//! The run of a whole script.

ghost use Rattle.script_run.specs.Ends.{Ends, EndHasCause};
ghost use Rattle.script_run.specs.Stream.{streams};

use crate::StateMachine;
use crate::next::{Next, next_line};
use crate::playing::{Play, play_line};
use px_base::{Bytes, Sink, Source};
use std::alloc::Global;

/// What the run of a script came to.
#[derive(Clone, Copy, Debug, PartialEq, Eq)]
pub enum RehearseEnd {
    /// The input was read to its end, and every line was done and printed.
    Done,
    /// The line with this number, from 1, is bad: it asks nothing that the machine knows, or is above the greatest
    /// length.
    BadLine(u64),
    /// One byte more came than the input may have.
    TooLong,
    /// The source failed, and its count rose. All that the lines print which were read whole went out.
    ReadFault,
    /// The sink failed, and its count rose. A front of what the lines print went out.
    WriteFault,
    /// Memory wanted. What the lines before print went out.
    Memory,
}

/// Runs the machine over the lines of a script of at most `limit` bytes. Each line is done and printed before the next
/// one is read.
pub fn run_script<M: StateMachine, S: Source, O: Sink>(
    alloc: Global,
    machine: &mut M,
    limit: u64,
    input: &mut S,
    out: &mut O,
) -> RehearseEnd
    ensures run { Ends M.machine limit (M.state machine.old) (M.state machine.new)
        (streams (S.left input.old) (S.read_faults input.old)
        (O.taken out.old) (O.write_faults out.old))
        (streams (S.left input.new) (S.read_faults input.new)
        (O.taken out.new) (O.write_faults out.new)) result }
    ensures cause { EndHasCause
        (streams (S.left input.old) (S.read_faults input.old)
        (O.taken out.old) (O.write_faults out.old))
        (streams (S.left input.new) (S.read_faults input.new)
        (O.taken out.new) (O.write_faults out.new)) result }
{
    let mut line = Bytes::new(alloc);
    let mut text = Bytes::new(alloc);
    let mut room = limit;
    let mut number: u64 = 0;
    loop {
        let last = match next_line(input, room, &mut line) {
            Next::Line { last } => last,
            Next::End => return RehearseEnd::Done,
            Next::Overlong => return RehearseEnd::BadLine(number + 1),
            Next::TooLong => return RehearseEnd::TooLong,
            Next::ReadFault => return RehearseEnd::ReadFault,
            Next::Memory => return RehearseEnd::Memory,
        };
        match play_line(alloc, machine, line.as_slice(), &mut text, out) {
            Play::Done => {}
            Play::Bad => return RehearseEnd::BadLine(number + 1),
            Play::WriteFault => return RehearseEnd::WriteFault,
            Play::Memory => return RehearseEnd::Memory,
        }
        if last {
            return RehearseEnd::Done;
        }
        number += 1;
        room -= line.len() as u64 + 1;
    }
}
