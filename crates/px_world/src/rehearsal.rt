//! The rehearsal of a script: a world, and the lines that drive it.

ghost use Rattle.script_run.specs.Acts.{Acts};
ghost use Rattle.script_run.specs.Ends.{EndHasCause};
ghost use Rattle.script_run.specs.Stream.{streams};
ghost use Rattle.script_rules.specs.Machine.{machine};
ghost use Rattle.px_world.specs.Rehearsal.{Rehearses, input_limit};

use crate::{Answer, Event, World, add_line};
use px_base::{Bytes, Sink, Source};
use px_script::{ScriptLine, read_line};
use script_run::{Act, RehearseEnd, StateMachine, run_script};
use std::alloc::Global;

/// The most bytes that a script may have.
pub const MAX_INPUT_BYTES: u64 = 1 << 40;

impl StateMachine for World {
    type Event = Event;

    type Reply = Answer;

    ghost use Rattle.px_cluster.specs.Cluster.{Cluster};
    ghost use Rattle.px_world.specs.World.{cluster_of};
    ghost use Rattle.script_rules.proofs.OneAnswer.{one_answer};
    ghost use Rattle.script_rules.specs.Machine.{machine};

    ghost State = { Cluster };

    ghost state = { λ w. cluster_of w };

    ghost machine = { machine };

    ghost one_answer = { one_answer };

    fn act(&mut self, alloc: Global, line: &[u8], text: &mut Bytes) -> Act {
        let event = match read_line(alloc, line) {
            ScriptLine::Asks(event) => event,
            ScriptLine::Nothing => return Act::Nothing,
            ScriptLine::Bad => return Act::Bad,
            ScriptLine::Memory => return Act::Memory,
        };
        let Ok(answer) = self.step(alloc, &event) else {
            return Act::Memory;
        };
        match add_line(text, &answer) {
            Ok(()) => Act::Prints,
            Err(_) => Act::Memory,
        }
    }
}

/// Rehearses a script of at most `limit` bytes, from the empty world. Each line is done and printed before the next one
/// is read.
pub fn rehearse_within<S: Source, O: Sink>(
    alloc: Global,
    limit: u64,
    input: &mut S,
    out: &mut O,
) -> RehearseEnd
    ensures run { Rehearses limit
        (streams (S.left input.old) (S.read_faults input.old)
        (O.taken out.old) (O.write_faults out.old))
        (streams (S.left input.new) (S.read_faults input.new)
        (O.taken out.new) (O.write_faults out.new)) result }
    ensures cause { EndHasCause
        (streams (S.left input.old) (S.read_faults input.old)
        (O.taken out.old) (O.write_faults out.old))
        (streams (S.left input.new) (S.read_faults input.new)
        (O.taken out.new) (O.write_faults out.new)) result }
{
    let mut world = World::new(alloc);
    run_script(alloc, &mut world, limit, input, out)
}

/// Rehearses a script, from the empty world.
pub fn rehearse<S: Source, O: Sink>(alloc: Global, input: &mut S, out: &mut O) -> RehearseEnd
    ensures run { Rehearses input_limit
        (streams (S.left input.old) (S.read_faults input.old)
        (O.taken out.old) (O.write_faults out.old))
        (streams (S.left input.new) (S.read_faults input.new)
        (O.taken out.new) (O.write_faults out.new)) result }
    ensures cause { EndHasCause
        (streams (S.left input.old) (S.read_faults input.old)
        (O.taken out.old) (O.write_faults out.old))
        (streams (S.left input.new) (S.read_faults input.new)
        (O.taken out.new) (O.write_faults out.new)) result }
{
    rehearse_within(alloc, MAX_INPUT_BYTES, input, out)
}
