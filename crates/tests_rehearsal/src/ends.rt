//! Pushes that are aborted, cancelled or stopped.

use crate::pushes::{BOTH_MADE, BOTH_PREPARED, DECIDED, TWO};
use crate::scripts::play;
use std::test::Fail;

// An abort takes the push from its node for good, though it was decided.
const ABORTED: &str = "\
    collect 1 a 1 -> committed {vote} 2/2
    collect 1 b 1 -> committed {vote} 2/2
    abort 1 b -> done
    abort 1 b -> refused Fenced 3
    commit 1 b -> refused Fenced 3
    prepare 1 b {zero}:{empty}:refs/tags/empty with blob: -> refused Fenced 3
    refs b 0 -> refs
    cast 1 b committed {vote} -> refused NotAcked
    booked 0 -> newest 1 a=doubt:2:0:1 b=doubt:2:0:1
    commit 1 a -> vote {vote}
    abort 1 a -> refused Fenced 3
    commit 1 a -> refused Fenced 3
    refs a 0 -> refs refs/tags/empty={empty}
    cast 1 a committed {vote} -> open
    withdraw 1 b -> ok
    finish 1 -> unsure 1
    booked 0 -> newest 1 a=at:1 b=doubt:2:0:1
    refs b 0 -> refs";

#[test]
fn what_is_aborted_is_not_committed(rt: HostRuntime) -> Result<(), Fail> {
    play(
        rt.alloc(),
        &[TWO, BOTH_MADE, BOTH_PREPARED, DECIDED, ABORTED],
    )
}

// Deliveries of a push that came to nothing meet the next one. A push that is prepared raises the fence
// to its lease, and one that is refused leaves it.
const NEXT_PUSH: &str = "\
    withdraw 1 a -> ok
    finish 1 -> noquorum
    begin 0 -> begun 2 lease 3 gen 0 members a b targets -
    prepare 2 a {zero}:{one}:refs/tags/one with blob:6f6e650a -> vote {other}
    abort 1 a -> refused Fenced 3
    prepare 1 a {zero}:{empty}:refs/tags/empty with blob: -> refused Fenced 3
    prepare 2 b {zero}:{one}:refs/tags/one -> refused Missing {one}
    prepare 1 b {zero}:{empty}:refs/tags/empty with blob: -> vote {vote}
    abort 1 b -> done
    abort 1 b -> refused Fenced 3
    refs b 0 -> refs
    prepare 2 b {zero}:{one}:refs/tags/one with blob:6f6e650a -> vote {other}
    cast 2 a prepared {other} -> open
    cast 2 b prepared {other} -> committed {other} 2/2
    commit 1 a -> refused NotOut
    collect 2 a 1 -> committed {other} 2/2
    commit 1 a -> refused NotOut
    refs a 0 -> refs
    commit 2 a -> vote {other}
    refs a 0 -> refs refs/tags/one={one}
    refs b 0 -> refs";

#[test]
fn what_a_push_left_behind_does_nothing_to_the_next_one(rt: HostRuntime) -> Result<(), Fail> {
    play(rt.alloc(), &[TWO, BOTH_MADE, BOTH_PREPARED, NEXT_PUSH])
}

const CANCELLED: &str = "\
    cast 1 a prepared {vote} -> open
    cancel 1 -> ok
    outcome 1 1 -> fail
    outcome 1 2 -> fail
    collect 1 a 1 -> canceled
    cast 1 b prepared {vote} -> refused Canceled
    stop 1 -> refused Decided
    outcome 1 2 -> fail
    commit 1 a -> refused NotOut
    refs a 0 -> refs
    booked 0 -> newest 0 a=at:0 b=at:0
    finish 1 -> canceled
    cancel 1 -> refused UnknownTx 1
    holder 0 -> holder -
    booked 0 -> newest 0 a=at:0 b=at:0";

const CANCELLED_ONCE_IT_FAILED: &str = "\
    withdraw 1 a -> ok
    outcome 1 1 -> fail
    stop 1 -> refused Decided
    outcome 1 1 -> fail
    cancel 1 -> ok
    finish 1 -> canceled
    booked 0 -> newest 0 a=at:0 b=at:0";

const STOPPED: &str = "\
    cast 1 a prepared {vote} -> open
    stop 1 -> ok
    outcome 1 1 -> stop
    outcome 1 2 -> stop
    collect 1 a 1 -> stopped
    cast 1 b prepared {vote} -> refused Stopped
    stop 1 -> refused Decided
    collect 1 b 1 -> stopped
    commit 1 a -> refused NotOut
    refs a 0 -> refs
    cancel 1 -> ok
    collect 1 b 1 -> stopped
    booked 0 -> newest 0 a=at:0 b=at:0
    finish 1 -> stopped
    holder 0 -> holder -
    booked 0 -> newest 0 a=at:0 b=at:0";

#[test]
fn a_push_that_is_not_decided_can_be_cancelled_and_stopped(rt: HostRuntime) -> Result<(), Fail> {
    for end in [CANCELLED, CANCELLED_ONCE_IT_FAILED, STOPPED] {
        play(rt.alloc(), &[TWO, BOTH_MADE, BOTH_PREPARED, end])?;
    }
    Ok(())
}

const CANCELLED_LATE: &str = "\
    cancel 1 -> ok
    outcome 1 1 -> commit {vote}
    outcome 1 2 -> fail
    collect 1 a 1 -> committed {vote} 2/2
    commit 1 a -> vote {vote}
    cast 1 a committed {vote} -> refused Canceled
    booked 0 -> newest 1 a=doubt:2:0:1 b=doubt:2:0:1
    finish 1 -> unsure 1
    booked 0 -> newest 1 a=doubt:2:0:1 b=doubt:2:0:1
    refs a 0 -> refs refs/tags/empty={empty}";

// What refuses a vote comes before what its node did not answer.
const STOPPED_LATE: &str = "\
    stop 1 -> ok
    outcome 1 1 -> commit {vote}
    outcome 1 2 -> stop
    collect 1 a 2 -> stopped
    collect 1 a 1 -> committed {vote} 2/2
    cast 1 a committed {vote} -> refused Stopped
    booked 0 -> newest 1 a=doubt:2:0:1 b=doubt:2:0:1
    commit 1 a -> vote {vote}
    cast 1 a committed {vote} -> refused Stopped
    booked 0 -> newest 1 a=doubt:2:0:1 b=doubt:2:0:1
    finish 1 -> unsure 1
    booked 0 -> newest 1 a=doubt:2:0:1 b=doubt:2:0:1
    refs a 0 -> refs refs/tags/empty={empty}";

#[test]
fn a_decided_push_stays_decided(rt: HostRuntime) -> Result<(), Fail> {
    for end in [CANCELLED_LATE, STOPPED_LATE] {
        play(rt.alloc(), &[TWO, BOTH_MADE, BOTH_PREPARED, DECIDED, end])?;
    }
    Ok(())
}
