//! From the arguments of a process to its exit status.

ghost use Rattle.std.specs.Prelude.{◌≡◌, [], ◌++◌, map, codes, string_bytes, IfOk, IfErr};
ghost use Rattle.std.specs.Process.{exit_status};
ghost use Rattle.std.specs.Vec.Iter.{into_iter_items};
ghost use Rattle.script_run.specs.Stream.{stream, streams};
ghost use Rattle.px_run.specs.Run.{Says};
ghost use Rattle.px_run.specs.Start.{Starts, behind_name};

use crate::message::tell_memory;
use crate::top::run;
use px_base::{Sink, Source, Words};
use std::alloc::{AllocError, Global};
use std::env::Args;
use std::io::{self, ErrorKind};
use std::process::ExitCode;

// The arguments behind the first, which is the program's name.
fn words_of(alloc: Global, mut args: Args) -> Result<Words, AllocError>
    ensures { IfOk result (λ words. words ≡ behind_name (map string_bytes (into_iter_items args))) }
{
    let _name = args.next();
    let mut words = Words::new(alloc);
    for arg in args {
        words.push(alloc, arg.as_str())?;
    }
    Ok(words)
}

/// The exit status of a process where memory wants before it can begin, which is said on the error stream.
pub fn start_without_memory<E: Sink>(err: &mut E) -> ExitCode
    ensures status { exit_status result ≡ 7 }
    ensures says { Says (stream (E.taken err.old) (E.write_faults err.old))
        (stream (E.taken err.new) (E.write_faults err.new))
        (codes "praefect: out of memory\n") }
{
    ExitCode::from(tell_memory(err).code())
}

/// All that the process does, but for what it alone has: its arguments, of which the first is the program's name, and its
/// streams, of which it reads `input`, prints to `out`, and says on `err` why it did not end well. What it answers is the
/// exit status. An argument that is no text makes them all no command.
pub fn start<S: Source, O: Sink, E: Sink>(
    alloc: Global,
    args: io::Result<Args>,
    input: &mut S,
    out: &mut O,
    err: &mut E,
) -> ExitCode
    // The words behind the program's name are run, whose status is the exit status.
    ensures words { IfOk args (λ args. Starts (behind_name (map string_bytes (into_iter_items args)))
        (streams (S.left input.old) (S.read_faults input.old)
        (O.taken out.old) (O.write_faults out.old))
        (streams (S.left input.new) (S.read_faults input.new)
        (O.taken out.new) (O.write_faults out.new))
        (stream (E.taken err.old) (E.write_faults err.old))
        (stream (E.taken err.new) (E.write_faults err.new)) (exit_status result)) }
    ensures no_words { IfErr args (λ e. Starts []
        (streams (S.left input.old) (S.read_faults input.old)
        (O.taken out.old) (O.write_faults out.old))
        (streams (S.left input.new) (S.read_faults input.new)
        (O.taken out.new) (O.write_faults out.new))
        (stream (E.taken err.old) (E.write_faults err.old))
        (stream (E.taken err.new) (E.write_faults err.new)) (exit_status result)) }
{
    let words = match args {
        Ok(args) => match words_of(alloc, args) {
            Ok(words) => words,
            Err(_) => return start_without_memory(err),
        },
        Err(error) => {
            if error.kind() == ErrorKind::OutOfMemory {
                return start_without_memory(err);
            }
            Words::new(alloc)
        }
    };
    let status = run(alloc, &words, input, out, err);
    ExitCode::from(status.code())
}
