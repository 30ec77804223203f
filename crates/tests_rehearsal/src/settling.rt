//! Storages in doubt that are settled.

use crate::pushes::{BOTH_MADE, BOTH_PREPARED, DECIDED, DOUBT, TWO};
use crate::reads::DOUBT_AND_READS;
use crate::scripts::play;
use std::test::Fail;

// The node tells that the lease of the doubt is the one that it committed last.
const DONE: &str = "\
    commit 1 b -> vote {vote}
    settle 0 b -> lease 3
    fence b 0 3 -> last 2
    settled 0 b 3 -> booked at:1
    booked 0 -> newest 1 a=at:1 b=at:1
    refs b 0 -> refs refs/tags/empty={empty}
    read 0 -> route b gen 1
    read 0 -> route a gen 1
    reconcile -> jobs
    begin 0 -> begun 2 lease 4 gen 1 members a b targets -";

#[test]
fn a_commit_that_was_done_is_found_by_settling(rt: HostRuntime) -> Result<(), Fail> {
    let tables = [
        TWO,
        BOTH_MADE,
        BOTH_PREPARED,
        DECIDED,
        DOUBT_AND_READS,
        DONE,
    ];
    play(rt.alloc(), &tables)
}

// The node has committed nothing, and does not from the fence on. A job brings it up to date.
const NOT_DONE: &str = "\
    settle 0 b -> lease 3
    booked 0 -> newest 1 a=at:1 b=doubt:2:0:1
    fence b 0 3 -> last -
    booked 0 -> newest 1 a=at:1 b=doubt:2:0:1
    commit 1 b -> refused Fenced 3
    settled 0 b 3 -> booked at:0
    booked 0 -> newest 1 a=at:1 b=at:0
    commit 1 b -> refused Fenced 3
    prepare 1 b {zero}:{empty}:refs/tags/empty with blob: -> refused Fenced 3
    abort 1 b -> refused Fenced 3
    refs b 0 -> refs
    read 0 -> route a gen 1
    read 0 -> route a gen 1
    reconcile -> jobs 1:update:0:a>b
    take b 1 -> job 1 update 0 a>b gen 1 lease 4
    snapshot 1 4 -> snapshot 1 1
    apply 1 4 -> done
    done 1 4 -> completed
    refs b 0 -> refs refs/tags/empty={empty}
    booked 0 -> newest 1 a=at:1 b=at:1";

#[test]
fn a_commit_that_was_not_done_is_fenced_off(rt: HostRuntime) -> Result<(), Fail> {
    let tables = [TWO, BOTH_MADE, BOTH_PREPARED, DECIDED, DOUBT, NOT_DONE];
    play(rt.alloc(), &tables)
}

// To draw the lease does nothing at the node: its fence is told when it comes there.
const BETWEEN: &str = "\
    settle 0 b -> lease 3
    commit 1 b -> vote {vote}
    fence b 0 3 -> last 2
    fence b 0 3 -> last 2
    commit 1 b -> refused Fenced 3
    settled 0 b 3 -> booked at:1
    fence b 0 3 -> last 2
    refs b 0 -> refs refs/tags/empty={empty}";

#[test]
fn a_commit_that_comes_before_the_fence_is_found(rt: HostRuntime) -> Result<(), Fail> {
    let tables = [TWO, BOTH_MADE, BOTH_PREPARED, DECIDED, DOUBT, BETWEEN];
    play(rt.alloc(), &tables)
}

// Both have committed a push. Of the next one the second storage is told, and is not heard of.
const SECOND_PUSH: &str = "\
    collect 1 a 1 -> committed {vote} 2/2
    collect 1 b 1 -> committed {vote} 2/2
    commit 1 a -> vote {vote}
    commit 1 b -> vote {vote}
    cast 1 a committed {vote} -> open
    cast 1 b committed {vote} -> committed {vote} 2/2
    finish 1 -> committed 1
    begin 0 -> begun 2 lease 3 gen 1 members a b targets -
    prepare 2 a {empty}:{one}:refs/tags/empty with blob:6f6e650a -> vote {moved}
    prepare 2 b {empty}:{one}:refs/tags/empty with blob:6f6e650a -> vote {moved}
    cast 2 a prepared {moved} -> open
    cast 2 b prepared {moved} -> committed {moved} 2/2
    collect 2 a 1 -> committed {moved} 2/2
    collect 2 b 1 -> committed {moved} 2/2
    commit 2 a -> vote {moved}
    cast 2 a committed {moved} -> open
    withdraw 2 b -> ok
    finish 2 -> unsure 2
    booked 0 -> newest 2 a=at:2 b=doubt:3:1:2";

// The last lease that it committed is that of the push before.
const FIRST_PUSH_ALONE: &str = "\
    settle 0 b -> lease 4
    fence b 0 4 -> last 2
    settled 0 b 4 -> booked at:1
    booked 0 -> newest 2 a=at:2 b=at:1
    commit 2 b -> refused Fenced 4
    refs b 0 -> refs refs/tags/empty={empty}
    read 0 -> route a gen 2
    reconcile -> jobs 1:update:0:a>b";

#[test]
fn the_commit_of_an_earlier_push_settles_nothing_of_this_one(rt: HostRuntime) -> Result<(), Fail> {
    let tables = [
        TWO,
        BOTH_MADE,
        BOTH_PREPARED,
        DECIDED,
        SECOND_PUSH,
        FIRST_PUSH_ALONE,
    ];
    play(rt.alloc(), &tables)
}

// Nobody confirms, and one has committed. There is no push, no read and no job until that is found.
const NOBODY_CONFIRMS: &str = "\
    collect 1 a 1 -> committed {vote} 2/2
    collect 1 b 1 -> committed {vote} 2/2
    commit 1 b -> vote {vote}
    withdraw 1 a -> ok
    withdraw 1 b -> ok
    read 0 -> refused InFlight 1
    finish 1 -> unsure 1
    booked 0 -> newest 1 a=doubt:2:0:1 b=doubt:2:0:1
    read 0 -> refused NoCurrentReplica 1 0
    begin 0 -> refused ReadOnly 1 0
    reconcile -> jobs
    settle 0 a -> lease 3
    fence a 0 3 -> last -
    settled 0 a 3 -> booked at:0
    read 0 -> refused NoCurrentReplica 1 0
    reconcile -> jobs
    settle 0 b -> lease 4
    fence b 0 4 -> last 2
    settled 0 b 4 -> booked at:1
    booked 0 -> newest 1 a=at:0 b=at:1
    read 0 -> route b gen 1
    commit 1 a -> refused Fenced 3
    refs a 0 -> refs
    reconcile -> jobs 1:update:0:b>a
    begin 0 -> begun 2 lease 5 gen 1 members b targets a";

#[test]
fn who_has_a_push_that_nobody_confirmed_is_found(rt: HostRuntime) -> Result<(), Fail> {
    let tables = [TWO, BOTH_MADE, BOTH_PREPARED, DECIDED, NOBODY_CONFIRMS];
    play(rt.alloc(), &tables)
}

// A settling that has begun ends beside a push, of which its storage is no member.
const BESIDE_A_PUSH: &str = "\
    commit 1 b -> vote {vote}
    settle 0 b -> lease 3
    begin 0 -> begun 2 lease 4 gen 1 members a targets b
    settle 0 b -> refused Turn 2
    fence b 0 3 -> last 2
    settled 0 b 3 -> booked at:1
    booked 0 -> newest 1 a=at:1 b=at:1
    prepare 2 b {empty}:{one}:refs/tags/empty with blob:6f6e650a -> refused NotOut
    read 0 -> route a gen 1
    read 0 -> route b gen 1
    stop 2 -> ok
    finish 2 -> stopped
    begin 0 -> begun 3 lease 5 gen 1 members a b targets -";

#[test]
fn a_settling_ends_beside_a_push(rt: HostRuntime) -> Result<(), Fail> {
    let tables = [TWO, BOTH_MADE, BOTH_PREPARED, DECIDED, DOUBT, BESIDE_A_PUSH];
    play(rt.alloc(), &tables)
}

// Its worker does not know, and its effect comes before the fence.
const RUNNING_JOB: &str = "\
    reconcile -> jobs 1:update:0:a>b
    take b 100 -> job 1 update 0 a>b gen 1 lease 3
    snapshot 1 3 -> snapshot 1 1
    settle 0 b -> lease 4
    beat 1 3 101 -> refused UnknownJob 1
    done 1 3 -> refused UnknownJob 1
    fail 1 3 -> refused UnknownJob 1
    stale 1000 0 -> stale
    take b 101 -> nojob
    apply 1 3 -> done
    refs b 0 -> refs refs/tags/empty={empty}
    fence b 0 4 -> last -
    settled 0 b 4 -> booked at:0
    done 1 3 -> refused UnknownJob 1
    apply 1 3 -> refused Fenced 4
    commit 1 b -> refused Fenced 4
    booked 0 -> newest 1 a=at:1 b=at:0
    reconcile -> jobs 2:update:0:a>b";

#[test]
fn a_job_in_progress_goes_when_a_settling_begins(rt: HostRuntime) -> Result<(), Fail> {
    let tables = [TWO, BOTH_MADE, BOTH_PREPARED, DECIDED, DOUBT, RUNNING_JOB];
    play(rt.alloc(), &tables)
}

// A job that nobody has taken stays, and has nothing to do then.
const READY_JOB: &str = "\
    reconcile -> jobs 1:update:0:a>b
    commit 1 b -> vote {vote}
    settle 0 b -> lease 3
    reconcile -> jobs
    fence b 0 3 -> last 2
    settled 0 b 3 -> booked at:1
    take b 1 -> dropped 1
    take b 2 -> nojob
    booked 0 -> newest 1 a=at:1 b=at:1";

#[test]
fn a_job_that_is_ready_stays_when_a_settling_begins(rt: HostRuntime) -> Result<(), Fail> {
    let tables = [TWO, BOTH_MADE, BOTH_PREPARED, DECIDED, DOUBT, READY_JOB];
    play(rt.alloc(), &tables)
}

// The later lease alone settles. The fence under the older one is answered all the same, and lowers
// nothing.
const TWO_LEASES: &str = "\
    settle 0 b -> lease 3
    settle 0 b -> lease 4
    settled 0 b 3 -> refused LeaseLost 4 3
    settled 0 b 4 -> refused NotAcked
    fence b 0 4 -> last -
    fence b 0 3 -> last -
    commit 1 b -> refused Fenced 4
    settled 0 b 3 -> refused LeaseLost 4 3
    settled 0 b 4 -> booked at:0
    settled 0 b 4 -> refused NotInDoubt
    settle 0 b -> refused NotInDoubt
    fence b 0 4 -> last -
    booked 0 -> newest 1 a=at:1 b=at:0";

// So does a job that is taken behind it, whose lease is that of no fence.
const JOB_BEHIND: &str = "\
    settle 0 b -> lease 3
    reconcile -> jobs 1:update:0:a>b
    take b 1 -> job 1 update 0 a>b gen 1 lease 4
    fence b 0 3 -> last -
    settled 0 b 3 -> refused LeaseLost 4 3
    settled 0 b 4 -> refused NotAcked
    fence b 0 4 -> refused NotOut
    snapshot 1 4 -> snapshot 1 1
    apply 1 4 -> done
    settled 0 b 4 -> refused NotAcked
    done 1 4 -> completed
    settled 0 b 3 -> refused LeaseLost 4 3
    settled 0 b 4 -> refused NotInDoubt
    refs b 0 -> refs refs/tags/empty={empty}
    booked 0 -> newest 1 a=at:1 b=at:1";

#[test]
fn a_storage_is_settled_under_the_last_lease_that_was_drawn_for_it(
    rt: HostRuntime,
) -> Result<(), Fail> {
    for end in [TWO_LEASES, JOB_BEHIND] {
        let tables = [TWO, BOTH_MADE, BOTH_PREPARED, DECIDED, DOUBT, end];
        play(rt.alloc(), &tables)?;
    }
    Ok(())
}

// A fence has no kind: what was drawn to accept a storage settles it, and accepts it then.
const DRAWN_TO_ACCEPT: &str = "\
    commit 1 b -> vote {vote}
    accept 0 b -> lease 3
    settled 0 b 3 -> refused NotAcked
    fence b 0 3 -> last 2
    settled 0 b 3 -> booked at:1
    booked 0 -> newest 1 a=at:1 b=at:1
    accepted 0 b 3 -> gen 2
    booked 0 -> newest 2 a=at:1 b=at:2";

const DRAWN_TO_SETTLE: &str = "\
    settle 0 b -> lease 3
    accepted 0 b 3 -> refused NotAcked
    fence b 0 3 -> last -
    accepted 0 b 3 -> gen 2
    settled 0 b 3 -> refused NotInDoubt
    refs b 0 -> refs
    booked 0 -> newest 2 a=at:1 b=at:2";

#[test]
fn one_fence_serves_to_settle_and_to_accept(rt: HostRuntime) -> Result<(), Fail> {
    for end in [DRAWN_TO_ACCEPT, DRAWN_TO_SETTLE] {
        let tables = [TWO, BOTH_MADE, BOTH_PREPARED, DECIDED, DOUBT, end];
        play(rt.alloc(), &tables)?;
    }
    Ok(())
}
