//! The top call.

ghost use Rattle.std.specs.Prelude.{◌≡◌};
ghost use Rattle.script_run.specs.Stream.{stream, streams};
ghost use Rattle.px_run.specs.Run.{Runs, RunHasCause};

use crate::Status;
use crate::message::{say, tell_bad_line, tell_memory};
use px_base::{Sink, Source, Words};
use px_world::{RehearseEnd, rehearse};
use std::alloc::Global;

/// Runs the program: `words` are those of the command line without the program's name, `input` is what it reads, `out`
/// where its replies go, and `err` where it says in one line why it did not end well. The one command is `rehearse`.
///
/// The status is `Done` where the input was read to its end and all of it was printed; `Usage` where the words are no
/// command; `ReadFault` or `WriteFault` where the input or `out` failed; `BadInput` at the first bad line, and where
/// the input passes 2^40 bytes; `Memory` where memory wants. A failing `err` leaves the status as it is.
pub fn run<S: Source, O: Sink, E: Sink>(
    alloc: Global,
    words: &Words,
    input: &mut S,
    out: &mut O,
    err: &mut E,
) -> Status
    // The run of the script, what is said of its end, and the status that goes with it.
    ensures run { Runs words.now
        (streams (S.left input.old) (S.read_faults input.old)
        (O.taken out.old) (O.write_faults out.old))
        (streams (S.left input.new) (S.read_faults input.new)
        (O.taken out.new) (O.write_faults out.new))
        (stream (E.taken err.old) (E.write_faults err.old))
        (stream (E.taken err.new) (E.write_faults err.new)) result }

    // Nothing is read or written where the words are no command.
    ensures unread { result ≡ Status.Usage → input.new ≡ input.old }
    ensures unwritten { result ≡ Status.Usage → out.new ≡ out.old }

    // A fault is answered only where that count rose.
    ensures cause { RunHasCause
        (streams (S.left input.old) (S.read_faults input.old)
        (O.taken out.old) (O.write_faults out.old))
        (streams (S.left input.new) (S.read_faults input.new)
        (O.taken out.new) (O.write_faults out.new)) result }
{
    if !words.is_only("rehearse") {
        say(err, b"praefect: usage\n");
        return Status::Usage;
    }
    match rehearse(alloc, input, out) {
        RehearseEnd::Done => Status::Done,
        RehearseEnd::BadLine(number) => {
            tell_bad_line(err, number);
            Status::BadInput
        }
        RehearseEnd::TooLong => {
            say(err, b"praefect: input too long\n");
            Status::BadInput
        }
        RehearseEnd::ReadFault => {
            say(err, b"praefect: read fault\n");
            Status::ReadFault
        }
        RehearseEnd::WriteFault => {
            say(err, b"praefect: write fault\n");
            Status::WriteFault
        }
        RehearseEnd::Memory => tell_memory(err),
    }
}
