//! What the program says of its end on the error stream, in one line. None of it takes memory.

ghost use Rattle.std.specs.Prelude.{◌≡◌, ◌++◌, codes, decimal};
ghost use Rattle.script_run.specs.Stream.{stream};
ghost use Rattle.px_run.specs.Run.{Says};

use crate::Status;
use itoa::Buffer;
use px_base::{Sink, WrittenEnd, write_all};

// A failing error stream changes nothing but itself.
pub(crate) fn say<E: Sink>(err: &mut E, text: &[u8])
    ensures { Says (stream (E.taken err.old) (E.write_faults err.old))
        (stream (E.taken err.new) (E.write_faults err.new)) text.now }
{
    let _ = write_all(err, text);
}

pub(crate) fn tell_bad_line<E: Sink>(err: &mut E, number: u64)
    ensures { Says (stream (E.taken err.old) (E.write_faults err.old))
        (stream (E.taken err.new) (E.write_faults err.new))
        (codes "praefect: line " ++ decimal number ++ codes ": bad line\n") }
{
    let mut digits = Buffer::new();
    match write_all(err, b"praefect: line ") {
        WrittenEnd::Failed => return,
        WrittenEnd::All => {}
    }
    match write_all(err, digits.format(number).as_bytes()) {
        WrittenEnd::Failed => return,
        WrittenEnd::All => {}
    }
    say(err, b": bad line\n");
}

// Says that memory wants, also where it does before the program could begin.
pub(crate) fn tell_memory<E: Sink>(err: &mut E) -> Status
    ensures status { result ≡ Status.Memory }
    ensures says { Says (stream (E.taken err.old) (E.write_faults err.old))
        (stream (E.taken err.new) (E.write_faults err.new))
        (codes "praefect: out of memory\n") }
{
    say(err, b"praefect: out of memory\n");
    Status::Memory
}
