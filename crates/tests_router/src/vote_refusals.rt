//! Each refusal of an operation on votes, and of two causes the first.

use crate::operations::{answer, play_after};
use crate::steps::THREE;
use px_core::Core;
use std::test::Fail;
use tests_tables::{compare, play};

const OPENING: &str = "\
    open 1 9 -> refused NoVoters
    open 9 9 a:1 b:1 b:1 a:1 -> refused DuplicateVoter b
    open 3 9 a:1 b:1 -> refused BadThreshold 2 3
    open 1 9 a:1 b:1 -> refused BadThreshold 2 1
    open 0 1 a:0 -> refused BadThreshold 0 0
    open 2 9 a:1 b:1 -> refused BadRounds 9
    open 2 0 a:1 b:1 -> refused BadRounds 0
    outcome 1 1 -> refused UnknownTx 1
    open 2 8 a:1 b:1 -> tx 1
    outcome 1 16 -> open
    outcome 1 17 -> refused NoSub 17
    open 4294967295 1 a:4294967295 b:0 -> tx 2
    cast 2 b prepared 1 -> open in 1
    cast 2 a prepared 1 -> committed 1111111111111111111111111111111111111111 \
        4294967295/4294967295 in 1";

#[test]
fn a_transaction_is_opened_with_a_panel_and_rounds(rt: HostRuntime) -> Result<(), Fail> {
    play(rt.alloc(), &mut Core::new(rt.alloc()), answer, OPENING)
}

// The voters have one name. Of the causes that is the second.
#[test]
fn a_panel_has_64_voters_at_most(rt: HostRuntime) -> Result<(), Fail> {
    let alloc = rt.alloc();
    let mut core = Core::new(alloc);
    for (count, want) in [
        (64, "refused DuplicateVoter a"),
        (65, "refused TooManyVoters 65"),
    ] {
        let voters = " a:1".repeat(alloc, count)?;
        let call = format!(in alloc; "9 9{}", voters.as_str())?;
        let told = answer(alloc, &mut core, "open", call.as_str())?;
        compare("a panel", told.as_str(), want)?;
    }
    Ok(())
}

// No transaction is opened.
const UNKNOWN: &str = "\
    cast 9 z committed 1 -> refused UnknownTx 9
    withdraw 9 z -> refused UnknownTx 9
    collect 9 z 0 -> refused UnknownTx 9
    outcome 9 0 -> refused UnknownTx 9
    cancel 9 -> refused UnknownTx 9
    stop 9 -> refused UnknownTx 9
    close 9 -> refused UnknownTx 9
    finish 9 -> refused UnknownTx 9";

// The first transaction: a canceled voter and a failed one, and nobody gets 2.
const FAILED: &str = "\
    open 2 1 a:1 b:1 c:1 -> tx 1
    finish 1 -> refused NotAPush
    cast 1 z committed 1 -> refused NotAVoter z
    withdraw 1 z -> refused NotAVoter z
    collect 1 z 0 -> refused NotAVoter z
    collect 1 a 0 -> refused NoSub 0
    collect 1 a 3 -> refused NoSub 3
    outcome 1 0 -> refused NoSub 0
    outcome 1 3 -> refused NoSub 3
    cast 1 a committed 1 -> refused WrongPhase prepared
    cast 1 a prepared 1 -> open in 1
    cast 1 a prepared 2 -> refused AlreadyVoted 1111111111111111111111111111111111111111
    cast 1 a committed 1 -> refused WrongPhase prepared
    withdraw 1 b -> ok
    withdraw 1 b -> refused Canceled
    cast 1 b committed 1 -> refused WrongPhase prepared
    cast 1 b prepared 1 -> refused Canceled
    collect 1 b 1 -> canceled in 1
    outcome 1 1 -> open
    cast 1 c prepared 2 -> failed in 1
    collect 1 a 1 -> failed in 1
    withdraw 1 a -> refused Decided
    cast 1 c prepared 2 -> refused AlreadyVoted 2222222222222222222222222222222222222222
    outcome 1 1 -> fail
    stop 1 -> refused Decided
    finish 1 -> refused NotAPush
    close 1 -> ok
    outcome 1 1 -> refused UnknownTx 1
    close 1 -> refused UnknownTx 1";

// The second: two voters are committed in both votes.
const FINISHED: &str = "\
    open 2 1 a:1 b:1 c:1 -> tx 2
    cast 2 a prepared 1 -> open in 1
    cast 2 b prepared 1 -> committed 1111111111111111111111111111111111111111 2/2 in 1
    cast 2 a prepared 1 -> refused WrongPhase committed
    cast 2 a committed 1 -> open in 2
    cast 2 a committed 2 -> refused AlreadyVoted 1111111111111111111111111111111111111111
    cast 2 b committed 1 -> committed 1111111111111111111111111111111111111111 2/2 in 2
    cast 2 a committed 1 -> refused Finished
    cast 2 a prepared 1 -> refused Finished
    withdraw 2 a -> refused Finished
    stop 2 -> refused Decided
    collect 2 c 1 -> open in 1
    outcome 2 2 -> commit 1111111111111111111111111111111111111111
    cancel 2 -> ok
    collect 2 c 1 -> canceled in 1
    collect 2 a 1 -> committed 1111111111111111111111111111111111111111 2/2 in 1
    close 2 -> ok";

// The third is stopped, when a voter voted and another one was canceled.
const STOPPED: &str = "\
    open 2 1 a:1 b:1 c:1 -> tx 3
    cast 3 a prepared 1 -> open in 1
    withdraw 3 b -> ok
    stop 3 -> ok
    outcome 3 1 -> stop
    outcome 3 2 -> stop
    cast 3 a prepared 1 -> refused Stopped
    cast 3 a committed 1 -> refused WrongPhase prepared
    withdraw 3 a -> refused Stopped
    cast 3 b prepared 1 -> refused Canceled
    withdraw 3 b -> refused Canceled
    collect 3 a 1 -> stopped in 1
    collect 3 b 1 -> canceled in 1
    stop 3 -> refused Decided
    finish 3 -> refused NotAPush
    close 3 -> ok";

#[test]
fn each_act_on_votes_is_refused_for_its_first_cause(rt: HostRuntime) -> Result<(), Fail> {
    let alloc = rt.alloc();
    let mut core = Core::new(alloc);
    play(alloc, &mut core, answer, UNKNOWN)?;
    play(alloc, &mut core, answer, FAILED)?;
    play(alloc, &mut core, answer, FINISHED)?;
    play(alloc, &mut core, answer, STOPPED)
}

// The votes of a push are refused alike, and what is no push is not finished as one.
const PUSH: &str = "\
    open 1 1 a:1 -> tx 1
    begin 0 -> begun 2 lease 2 gen 0 members a b c targets -
    finish 1 -> refused NotAPush
    close 2 -> refused IsPush
    cast 2 z committed 1 -> refused NotAVoter z
    cast 2 a committed 1 -> refused WrongPhase prepared
    cast 2 a prepared 1 -> open in 1
    cast 2 a prepared 2 -> refused AlreadyVoted 1111111111111111111111111111111111111111
    withdraw 2 c -> ok
    cast 2 c committed 1 -> refused WrongPhase prepared
    cast 2 c prepared 1 -> refused Canceled
    booked 0 -> newest 0 a=at:0 b=at:0 c=at:0
    cast 2 b prepared 1 -> committed 1111111111111111111111111111111111111111 3/3 in 1
    cast 2 b prepared 1 -> refused WrongPhase committed
    booked 0 -> newest 1 a=doubt:2:0:1 b=doubt:2:0:1 c=at:0
    cast 2 a committed 1 -> open in 2
    cast 2 a committed 1 -> refused AlreadyVoted 1111111111111111111111111111111111111111
    cast 2 b committed 1 -> committed 1111111111111111111111111111111111111111 3/3 in 2
    cast 2 b committed 1 -> refused Finished
    withdraw 2 b -> refused Finished
    booked 0 -> newest 1 a=at:1 b=at:1 c=at:0
    finish 2 -> committed 1
    cast 1 a prepared 1 -> committed 1111111111111111111111111111111111111111 1/1 in 1
    close 1 -> ok";

#[test]
fn each_vote_on_a_push_is_refused_for_its_first_cause(rt: HostRuntime) -> Result<(), Fail> {
    play_after(rt.alloc(), THREE, PUSH)
}
