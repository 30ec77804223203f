//! Votes that come late, are withdrawn or differ, and pushes that end otherwise than committed.

use crate::operations::play_after;
use crate::steps::THREE;
use std::test::Fail;

// The first two members decide for 1. The third one votes for 2, and has failed.
const OTHER_VOTE: &str = "\
    begin 0 -> begun 1 lease 2 gen 0 members a b c targets -
    cast 1 a prepared 1 -> open in 1
    cast 1 b prepared 1 -> committed 1111111111111111111111111111111111111111 3/3 in 1
    cast 1 c prepared 2 -> failed in 1
    booked 0 -> newest 1 a=doubt:2:0:1 b=doubt:2:0:1 c=at:0
    collect 1 c 2 -> canceled in 2
    cast 1 c committed 1 -> refused WrongPhase prepared
    cast 1 c prepared 1 -> refused AlreadyVoted 2222222222222222222222222222222222222222
    withdraw 1 c -> refused Decided
    cast 1 a committed 1 -> open in 2
    cast 1 b committed 1 -> committed 1111111111111111111111111111111111111111 3/3 in 2
    finish 1 -> committed 1
    booked 0 -> newest 1 a=at:1 b=at:1 c=at:0
    begin 0 -> begun 2 lease 3 gen 1 members a b targets c";

#[test]
fn who_votes_late_for_another_hash_has_failed(rt: HostRuntime) -> Result<(), Fail> {
    play_after(rt.alloc(), THREE, OTHER_VOTE)
}

// The third member votes when the others have confirmed, and confirms when they are counted.
const LATE: &str = "\
    begin 0 -> begun 1 lease 2 gen 0 members a b c targets -
    cast 1 c prepared 1 -> open in 1
    cast 1 a prepared 1 -> committed 1111111111111111111111111111111111111111 3/3 in 1
    booked 0 -> newest 1 a=doubt:2:0:1 b=at:0 c=doubt:2:0:1
    cast 1 a committed 1 -> open in 2
    cast 1 c committed 1 -> committed 1111111111111111111111111111111111111111 3/3 in 2
    booked 0 -> newest 1 a=at:1 b=at:0 c=at:1
    cast 1 b prepared 1 -> committed 1111111111111111111111111111111111111111 4/3 in 1
    booked 0 -> newest 1 a=at:1 b=doubt:2:0:1 c=at:1
    cast 1 b committed 1 -> committed 1111111111111111111111111111111111111111 4/3 in 2
    booked 0 -> newest 1 a=at:1 b=at:1 c=at:1
    finish 1 -> committed 1";

#[test]
fn a_late_voter_is_in_doubt_until_it_confirms(rt: HostRuntime) -> Result<(), Fail> {
    play_after(rt.alloc(), THREE, LATE)
}

// A secondary is withdrawn before the decision, and the others decide without it.
const WITHDRAWN: &str = "\
    begin 0 -> begun 1 lease 2 gen 0 members a b c targets -
    cast 1 b prepared 1 -> open in 1
    withdraw 1 b -> ok
    collect 1 b 1 -> canceled in 1
    collect 1 b 2 -> canceled in 2
    cast 1 b prepared 1 -> refused Canceled
    withdraw 1 b -> refused Canceled
    cast 1 a prepared 1 -> open in 1
    cast 1 c prepared 1 -> committed 1111111111111111111111111111111111111111 3/3 in 1
    booked 0 -> newest 1 a=doubt:2:0:1 b=at:0 c=doubt:2:0:1
    cast 1 c committed 1 -> open in 2
    cast 1 a committed 1 -> committed 1111111111111111111111111111111111111111 3/3 in 2
    finish 1 -> committed 1
    booked 0 -> newest 1 a=at:1 b=at:0 c=at:1";

#[test]
fn a_push_is_decided_without_a_voter_that_is_withdrawn(rt: HostRuntime) -> Result<(), Fail> {
    play_after(rt.alloc(), THREE, WITHDRAWN)
}

// The primary is withdrawn after the decision: too few can confirm, and who does is booked all the
// same.
const UNSURE: &str = "\
    begin 0 -> begun 1 lease 2 gen 0 members a b c targets -
    cast 1 a prepared 1 -> open in 1
    cast 1 b prepared 1 -> committed 1111111111111111111111111111111111111111 3/3 in 1
    finish 1 -> refused StillOpen
    withdraw 1 a -> ok
    collect 1 a 1 -> committed 1111111111111111111111111111111111111111 3/3 in 1
    collect 1 a 2 -> canceled in 2
    outcome 1 2 -> fail
    cast 1 b committed 1 -> failed in 2
    booked 0 -> newest 1 a=doubt:2:0:1 b=at:1 c=at:0
    cast 1 a committed 1 -> refused Canceled
    cast 1 c prepared 1 -> committed 1111111111111111111111111111111111111111 4/3 in 1
    booked 0 -> newest 1 a=doubt:2:0:1 b=at:1 c=doubt:2:0:1
    finish 1 -> unsure 1
    holder 0 -> holder -
    booked 0 -> newest 1 a=doubt:2:0:1 b=at:1 c=doubt:2:0:1
    begin 0 -> begun 2 lease 3 gen 1 members b targets a c
    cast 2 b prepared 2 -> committed 2222222222222222222222222222222222222222 1/1 in 1
    booked 0 -> newest 2 a=doubt:2:0:1 b=doubt:3:1:2 c=doubt:2:0:1
    withdraw 2 b -> ok
    finish 2 -> unsure 2
    begin 0 -> refused ReadOnly 2 0";

#[test]
fn who_confirms_is_booked_though_too_few_do(rt: HostRuntime) -> Result<(), Fail> {
    play_after(rt.alloc(), THREE, UNSURE)
}

// The members tell that they committed another hash than was decided. No booking follows.
const ANOTHER_COMMIT: &str = "\
    begin 0 -> begun 1 lease 2 gen 0 members a b c targets -
    cast 1 a prepared 1 -> open in 1
    cast 1 b prepared 1 -> committed 1111111111111111111111111111111111111111 3/3 in 1
    cast 1 a committed 2 -> open in 2
    booked 0 -> newest 1 a=doubt:2:0:1 b=doubt:2:0:1 c=at:0
    cast 1 b committed 2 -> committed 2222222222222222222222222222222222222222 3/3 in 2
    booked 0 -> newest 1 a=doubt:2:0:1 b=doubt:2:0:1 c=at:0
    outcome 1 1 -> commit 1111111111111111111111111111111111111111
    outcome 1 2 -> commit 2222222222222222222222222222222222222222
    finish 1 -> unsure 1
    booked 0 -> newest 1 a=doubt:2:0:1 b=doubt:2:0:1 c=at:0";

#[test]
fn a_commit_of_another_hash_books_nothing(rt: HostRuntime) -> Result<(), Fail> {
    play_after(rt.alloc(), THREE, ANOTHER_COMMIT)
}

// No hash gets the threshold of 3. The second push fails since its primary is withdrawn.
const NO_QUORUM: &str = "\
    begin 0 -> begun 1 lease 2 gen 0 members a b c targets -
    cast 1 a prepared 1 -> open in 1
    cast 1 b prepared 2 -> open in 1
    cast 1 c prepared 2 -> failed in 1
    collect 1 a 1 -> failed in 1
    outcome 1 1 -> fail
    outcome 1 2 -> fail
    finish 1 -> noquorum
    holder 0 -> holder -
    booked 0 -> newest 0 a=at:0 b=at:0 c=at:0
    begin 0 -> begun 2 lease 3 gen 0 members a b c targets -
    cast 2 a prepared 1 -> open in 1
    withdraw 2 a -> ok
    outcome 2 1 -> fail
    cast 2 b prepared 1 -> failed in 1
    finish 2 -> noquorum
    booked 0 -> newest 0 a=at:0 b=at:0 c=at:0";

#[test]
fn a_push_without_a_quorum_changes_no_booking(rt: HostRuntime) -> Result<(), Fail> {
    play_after(rt.alloc(), THREE, NO_QUORUM)
}

const CANCELED: &str = "\
    begin 0 -> begun 1 lease 2 gen 0 members a b c targets -
    cast 1 a prepared 1 -> open in 1
    cancel 1 -> ok
    push 1 -> 1 of 0 2 0 by 0,1,2 true false
    collect 1 a 1 -> canceled in 1
    collect 1 b 2 -> canceled in 2
    outcome 1 1 -> fail
    outcome 1 2 -> fail
    cast 1 a prepared 1 -> refused Canceled
    cast 1 b prepared 1 -> refused Canceled
    withdraw 1 b -> refused Canceled
    stop 1 -> refused Decided
    cancel 1 -> ok
    holder 0 -> holder 1
    finish 1 -> canceled
    holder 0 -> holder -
    booked 0 -> newest 0 a=at:0 b=at:0 c=at:0
    begin 0 -> begun 2 lease 3 gen 0 members a b c targets -";

// What is decided stays, and the members that were told to commit stay in doubt.
const CANCELED_LATE: &str = "\
    begin 0 -> begun 1 lease 2 gen 0 members a b c targets -
    cast 1 a prepared 1 -> open in 1
    cast 1 b prepared 1 -> committed 1111111111111111111111111111111111111111 3/3 in 1
    cancel 1 -> ok
    push 1 -> 1 of 0 2 0 by 0,1,2 true false
    collect 1 a 1 -> committed 1111111111111111111111111111111111111111 3/3 in 1
    collect 1 c 1 -> canceled in 1
    collect 1 a 2 -> canceled in 2
    outcome 1 1 -> commit 1111111111111111111111111111111111111111
    outcome 1 2 -> fail
    cast 1 a committed 1 -> refused Canceled
    cast 1 c prepared 1 -> refused Canceled
    finish 1 -> unsure 1
    booked 0 -> newest 1 a=doubt:2:0:1 b=doubt:2:0:1 c=at:0";

// No hash has a quorum before the cancel.
const CANCELED_FAILED: &str = "\
    begin 0 -> begun 1 lease 2 gen 0 members a b c targets -
    withdraw 1 a -> ok
    outcome 1 1 -> fail
    cancel 1 -> ok
    finish 1 -> canceled
    booked 0 -> newest 0 a=at:0 b=at:0 c=at:0";

#[test]
fn a_push_is_canceled_unless_it_is_decided(rt: HostRuntime) -> Result<(), Fail> {
    let alloc = rt.alloc();
    play_after(alloc, THREE, CANCELED)?;
    play_after(alloc, THREE, CANCELED_LATE)?;
    play_after(alloc, THREE, CANCELED_FAILED)
}

// A stop counts before a cancel.
const STOPPED: &str = "\
    begin 0 -> begun 1 lease 2 gen 0 members a b c targets -
    cast 1 a prepared 1 -> open in 1
    stop 1 -> ok
    push 1 -> 1 of 0 2 0 by 0,1,2 false true
    outcome 1 1 -> stop
    outcome 1 2 -> stop
    collect 1 a 1 -> stopped in 1
    collect 1 b 2 -> stopped in 2
    cast 1 a prepared 1 -> refused Stopped
    cast 1 b prepared 1 -> refused Stopped
    cast 1 b committed 1 -> refused WrongPhase prepared
    withdraw 1 b -> refused Stopped
    stop 1 -> refused Decided
    cancel 1 -> ok
    push 1 -> 1 of 0 2 0 by 0,1,2 true true
    collect 1 b 1 -> stopped in 1
    finish 1 -> stopped
    holder 0 -> holder -
    booked 0 -> newest 0 a=at:0 b=at:0 c=at:0";

// The votes on what is committed are stopped, and a late voter is still told to commit.
const STOPPED_LATE: &str = "\
    begin 0 -> begun 1 lease 2 gen 0 members a b c targets -
    cast 1 a prepared 1 -> open in 1
    cast 1 b prepared 1 -> committed 1111111111111111111111111111111111111111 3/3 in 1
    stop 1 -> ok
    push 1 -> 1 of 0 2 0 by 0,1,2 false true
    outcome 1 1 -> commit 1111111111111111111111111111111111111111
    outcome 1 2 -> stop
    collect 1 a 2 -> stopped in 2
    cast 1 a committed 1 -> refused Stopped
    cast 1 c prepared 1 -> committed 1111111111111111111111111111111111111111 4/3 in 1
    booked 0 -> newest 1 a=doubt:2:0:1 b=doubt:2:0:1 c=doubt:2:0:1
    finish 1 -> unsure 1
    holder 0 -> holder -
    booked 0 -> newest 1 a=doubt:2:0:1 b=doubt:2:0:1 c=doubt:2:0:1";

#[test]
fn a_push_is_stopped_unless_it_is_decided(rt: HostRuntime) -> Result<(), Fail> {
    let alloc = rt.alloc();
    play_after(alloc, THREE, STOPPED)?;
    play_after(alloc, THREE, STOPPED_LATE)
}

// A push that is committed can be canceled, and then ends committed. It is never closed.
const DECIDED: &str = "\
    begin 0 -> begun 1 lease 2 gen 0 members a b c targets -
    close 1 -> refused IsPush
    cast 1 a prepared 1 -> open in 1
    cast 1 b prepared 1 -> committed 1111111111111111111111111111111111111111 3/3 in 1
    cast 1 a committed 1 -> open in 2
    cast 1 b committed 1 -> committed 1111111111111111111111111111111111111111 3/3 in 2
    stop 1 -> refused Decided
    push 1 -> 1 of 0 2 0 by 0,1,2 false false
    cancel 1 -> ok
    close 1 -> refused IsPush
    holder 0 -> holder 1
    finish 1 -> committed 1
    close 1 -> refused UnknownTx 1
    booked 0 -> newest 1 a=at:1 b=at:1 c=at:0";

#[test]
fn what_is_committed_is_neither_stopped_nor_closed(rt: HostRuntime) -> Result<(), Fail> {
    play_after(rt.alloc(), THREE, DECIDED)
}
