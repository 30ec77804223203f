//! The worked examples: a script, and what it prints.

use crate::runs::rehearsed;
use std::alloc::Global;
use std::test::Fail;

// Each example is what it shows, behind `==`; a script; and, behind `--`, what that prints.
const EXAMPLES: &str = "\
== an empty script prints nothing
--
== two of three decide, and a late voter of another hash fails
open 2 1 a:1 b:1 c:1
cast 1 a prepared 1111111111111111111111111111111111111111
cast 1 b prepared 1111111111111111111111111111111111111111
collect 1 a 1
cast 1 c prepared 2222222222222222222222222222222222222222
--
tx 1
open
committed 1111111111111111111111111111111111111111 2/2
committed 1111111111111111111111111111111111111111 2/2
failed
== a threshold below half is refused
open 1 1 a:1 b:1 c:1
--
refused BadThreshold 3 1
== a threshold of exactly half is refused
open 2 1 a:2 b:2
open 3 1 a:2 b:2
cast 1 a prepared 1111111111111111111111111111111111111111
cast 1 b prepared 1111111111111111111111111111111111111111
--
refused BadThreshold 4 2
tx 1
open
committed 1111111111111111111111111111111111111111 4/3
== a vote fails as soon as no hash can reach the threshold
open 3 1 a:1 b:1 c:1
cast 1 a prepared 1111111111111111111111111111111111111111
cast 1 b prepared 2222222222222222222222222222222222222222
--
tx 1
open
failed
== three votes for three hashes fail
open 2 1 a:1 b:1 c:1
cast 1 a prepared 1111111111111111111111111111111111111111
cast 1 b prepared 2222222222222222222222222222222222222222
cast 1 c prepared 3333333333333333333333333333333333333333
outcome 1 1
--
tx 1
open
open
failed
fail
== a withdrawn vote does not count
open 2 1 a:1 b:1 c:1
cast 1 a prepared 1111111111111111111111111111111111111111
withdraw 1 a
cast 1 b prepared 1111111111111111111111111111111111111111
cast 1 c prepared 1111111111111111111111111111111111111111
collect 1 a 1
--
tx 1
open
ok
open
committed 1111111111111111111111111111111111111111 2/2
canceled
== a second vote is refused with the first one
open 2 1 a:1 b:1 c:1
cast 1 a prepared 1111111111111111111111111111111111111111
cast 1 a prepared 2222222222222222222222222222222222222222
outcome 1 1
--
tx 1
open
refused AlreadyVoted 1111111111111111111111111111111111111111
open
== a voter without weight is told the outcome
open 2 1 a:1 b:1 z:0
cast 1 a prepared 1111111111111111111111111111111111111111
cast 1 b prepared 1111111111111111111111111111111111111111
cast 1 z prepared 1111111111111111111111111111111111111111
outcome 1 1
--
tx 1
open
committed 1111111111111111111111111111111111111111 2/2
committed 1111111111111111111111111111111111111111 2/2
commit 1111111111111111111111111111111111111111
== a voter votes twice a round, in the phase that is due
open 1 1
open 2 1 a:1 a:2
open 1 9 a:1
open 1 0 a:1
open 1 1 a:1
cast 1 a committed 1111111111111111111111111111111111111111
cast 1 a prepared 1111111111111111111111111111111111111111
cast 1 a prepared 1111111111111111111111111111111111111111
cast 1 a committed 1111111111111111111111111111111111111111
cast 1 a committed 1111111111111111111111111111111111111111
withdraw 1 a
--
refused NoVoters
refused DuplicateVoter a
refused BadRounds 9
refused BadRounds 0
tx 1
refused WrongPhase prepared
committed 1111111111111111111111111111111111111111 1/1
refused WrongPhase committed
committed 1111111111111111111111111111111111111111 1/1
refused Finished
refused Finished
== who failed in one vote is canceled in the next
open 2 1 a:1 b:1 c:1
cast 1 a prepared 1111111111111111111111111111111111111111
cast 1 b prepared 1111111111111111111111111111111111111111
cast 1 c prepared 2222222222222222222222222222222222222222
cast 1 c committed 1111111111111111111111111111111111111111
cast 1 c prepared 1111111111111111111111111111111111111111
collect 1 c 2
withdraw 1 a
collect 1 a 1
outcome 1 2
cast 1 b committed 1111111111111111111111111111111111111111
close 1
close 1
--
tx 1
open
committed 1111111111111111111111111111111111111111 2/2
failed
refused WrongPhase prepared
refused AlreadyVoted 2222222222222222222222222222222222222222
canceled
ok
committed 1111111111111111111111111111111111111111 2/2
fail
failed
ok
refused UnknownTx 1
== a stop ends each open vote, and leaves what was decided
open 2 2 a:1 b:1 c:1
open 1 8 a:1
cast 1 a prepared 1111111111111111111111111111111111111111
cast 1 b prepared 1111111111111111111111111111111111111111
cast 1 c prepared 2222222222222222222222222222222222222222
cast 1 a committed 1111111111111111111111111111111111111111
cast 1 b committed 1111111111111111111111111111111111111111
collect 1 c 4
cast 1 a prepared 3333333333333333333333333333333333333333
outcome 1 3
stop 1
outcome 1 1
outcome 1 3
outcome 1 4
collect 1 a 3
collect 1 c 3
cast 1 a prepared 1111111111111111111111111111111111111111
withdraw 1 b
stop 1
close 1
outcome 2 16
outcome 2 17
--
tx 1
tx 2
open
committed 1111111111111111111111111111111111111111 2/2
failed
open
committed 1111111111111111111111111111111111111111 2/2
canceled
open
open
ok
commit 1111111111111111111111111111111111111111
stop
stop
stopped
canceled
refused Stopped
refused Stopped
refused Decided
ok
open
refused NoSub 17
== a stopped vote takes no more
open 2 1 a:1 b:1
cast 1 a prepared 1111111111111111111111111111111111111111
stop 1
collect 1 a 1
cast 1 b prepared 1111111111111111111111111111111111111111
stop 1
cast 2 a prepared 1111111111111111111111111111111111111111
--
tx 1
open
ok
stopped
refused Stopped
refused Decided
refused UnknownTx 2
== a cancel takes all undecided voters
open 3 1 a:1 b:1 c:1
cast 1 a prepared 1111111111111111111111111111111111111111
cast 1 c prepared 1111111111111111111111111111111111111111
cancel 1
collect 1 a 1
collect 1 b 1
collect 1 c 1
outcome 1 1
cancel 1
collect 1 a 2
--
tx 1
open
open
ok
canceled
canceled
canceled
fail
ok
canceled
== refusals come in their order
open 1 1 a:1
cast 1 b prepared 1111111111111111111111111111111111111111
collect 1 b 3
collect 2 b 3
collect 1 a 3
collect 1 a 0
outcome 1 3
cast 1 a prepared 1111111111111111111111111111111111111111
withdraw 1 a
cast 1 a committed 1111111111111111111111111111111111111111
open 2 1 a:1 b:1 c:1
withdraw 2 a
withdraw 2 a
cast 2 a prepared 1111111111111111111111111111111111111111
cast 2 b prepared 1111111111111111111111111111111111111111
cast 2 c prepared 2222222222222222222222222222222222222222
withdraw 2 c
stop 2
--
tx 1
refused NotAVoter b
refused NotAVoter b
refused UnknownTx 2
refused NoSub 3
refused NoSub 0
refused NoSub 3
committed 1111111111111111111111111111111111111111 1/1
ok
refused Canceled
tx 2
ok
refused Canceled
refused Canceled
open
failed
refused Decided
refused Decided
";

// Runs the script of an example, which has to print what the example says, and nothing else.
fn play(alloc: Global, example: &str) -> Result<(), Fail> {
    let (what, rest) = example.split_once("\n").unwrap_or((example, ""));
    let (script, want) = rest.split_once("--\n").unwrap_or((rest, ""));
    let ran = rehearsed(alloc, script.as_bytes(), &[], &[])?;
    if ran.is(0, want.as_bytes(), b"") {
        return Ok(());
    }
    let out = str::from_utf8(ran.out.bytes()).unwrap_or("?");
    Err(Fail::new(format_args!("{what}: status {} after {out}", ran.status.code())))
}

#[test]
fn worked_examples_print_what_they_should(rt: HostRuntime) -> Result<(), Fail> {
    // Before the first mark is an empty script, which prints nothing.
    for example in EXAMPLES.split("== ") {
        play(rt.alloc(), example)?;
    }
    Ok(())
}
