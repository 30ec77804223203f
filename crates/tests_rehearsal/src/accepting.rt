//! Replicas that are accepted as they are, and what becomes of the others.

use crate::jobs::{TAKEN, WITHOUT_C};
use crate::pushes::{BOTH_MADE, BOTH_PREPARED, DECIDED, THREE, TWO};
use crate::scripts::play;
use std::test::Fail;

// Three storages, of which the first one alone is up.
const ONE_UP: &str = "\
    storage default a -> storage 0
    storage default b -> storage 1
    storage default c -> storage 2
    health a up -> ok
    create default x.git 0 -> created 0 lease 1 assigned a b c
    make a 0 1 -> done
    make b 0 1 -> done
    make c 0 1 -> done
    enrol 0 a 1 -> ok
    enrol 0 b 1 -> ok
    enrol 0 c 1 -> ok";

// It has two pushes that the others lack.
const TWO_PUSHES: &str = "\
    begin 0 -> begun 1 lease 2 gen 0 members a targets b c
    prepare 1 a {zero}:{empty}:refs/tags/empty with blob: -> vote {vote}
    cast 1 a prepared {vote} -> committed {vote} 1/1
    collect 1 a 1 -> committed {vote} 1/1
    commit 1 a -> vote {vote}
    cast 1 a committed {vote} -> committed {vote} 1/1
    finish 1 -> committed 1
    begin 0 -> begun 2 lease 3 gen 1 members a targets b c
    prepare 2 a {zero}:{empty}:refs/tags/two -> vote {two}
    cast 2 a prepared {two} -> committed {two} 1/1
    collect 2 a 1 -> committed {two} 1/1
    commit 2 a -> vote {two}
    cast 2 a committed {two} -> committed {two} 1/1
    finish 2 -> committed 2
    health b up -> ok
    health c up -> ok";

// The second one is accepted. It has nothing, and that is the newest content now.
const SECOND_ACCEPTED: &str = "\
    accept 0 b -> lease 4
    fence b 0 4 -> last -
    accepted 0 b 4 -> gen 3
    booked 0 -> newest 3 a=at:2 b=at:3 c=at:0
    reconcile -> jobs 1:update:0:b>a 2:update:0:b>c
    read 0 -> route b gen 3
    refs b 0 -> refs";

// Both pushes go with the update of the storage that had them.
const BROUGHT_UP: &str = "\
    refs a 0 -> refs refs/tags/empty={empty} refs/tags/two={empty}
    take a 1 -> job 1 update 0 b>a gen 3 lease 5
    take c 1 -> job 2 update 0 b>c gen 3 lease 6
    snapshot 1 5 -> snapshot 0 0
    snapshot 2 6 -> snapshot 0 0
    commit 2 a -> refused Fenced 4
    apply 1 5 -> done
    commit 2 a -> refused Fenced 6
    refs a 0 -> refs
    done 1 5 -> completed
    read 0 -> route b gen 3
    read 0 -> route a gen 3
    apply 2 6 -> done
    done 2 6 -> completed
    booked 0 -> newest 3 a=at:3 b=at:3 c=at:3
    reconcile -> jobs
    read 0 -> route a gen 3
    read 0 -> route b gen 3
    read 0 -> route c gen 3
    begin 0 -> begun 3 lease 7 gen 3 members a b c targets -";

#[test]
fn what_was_accepted_takes_the_place_of_what_was_newest(rt: HostRuntime) -> Result<(), Fail> {
    let tables = [ONE_UP, TWO_PUSHES, SECOND_ACCEPTED, BROUGHT_UP];
    play(rt.alloc(), &tables)
}

// A lease serves as long as the replica keeps it: that of another storage does not take it away.
const TWICE: &str = "\
    accept 0 b -> lease 2
    accepted 0 b 2 -> refused NotAcked
    fence b 0 2 -> last -
    accepted 0 b 2 -> gen 1
    accepted 0 b 2 -> gen 2
    booked 0 -> newest 2 a=at:0 b=at:2 c=at:0
    accept 0 c -> lease 3
    accepted 0 b 2 -> gen 3
    accepted 0 c 3 -> refused NotAcked
    fence c 0 3 -> last -
    accepted 0 c 3 -> gen 4
    booked 0 -> newest 4 a=at:0 b=at:3 c=at:4
    accepted 0 b 3 -> refused LeaseLost 2 3
    accept 0 b -> lease 4
    accepted 0 b 2 -> refused LeaseLost 4 2
    accepted 0 b 4 -> refused NotAcked
    read 0 -> route c gen 4
    reconcile -> jobs 1:update:0:c>a 2:update:0:c>b
    booked 0 -> newest 4 a=at:0 b=at:3 c=at:4";

#[test]
fn a_storage_is_accepted_twice_under_one_lease(rt: HostRuntime) -> Result<(), Fail> {
    play(rt.alloc(), &[THREE, TWICE])
}

// The third one is accepted while a job is to bring it up to date, and the push of the others is
// given up.
const RUNNING_JOB: &str = "\
    accept 0 c -> lease 4
    beat 1 3 11 -> refused UnknownJob 1
    take c 11 -> nojob
    fence c 0 4 -> last -
    apply 1 3 -> refused Fenced 4
    accepted 0 c 4 -> gen 2
    done 1 3 -> refused UnknownJob 1
    booked 0 -> newest 2 a=at:1 b=at:1 c=at:2
    refs c 0 -> refs
    snapshot 1 3 -> snapshot 1 1
    apply 1 3 -> refused Fenced 4
    reconcile -> jobs 2:update:0:c>a 3:update:0:c>b
    take a 12 -> job 2 update 0 c>a gen 2 lease 5
    snapshot 2 5 -> snapshot 0 0
    apply 2 5 -> done
    done 2 5 -> completed
    refs a 0 -> refs
    refs b 0 -> refs refs/tags/empty={empty}
    booked 0 -> newest 2 a=at:2 b=at:1 c=at:2";

#[test]
fn a_job_in_progress_goes_when_its_storage_is_accepted(rt: HostRuntime) -> Result<(), Fail> {
    play(rt.alloc(), &[THREE, WITHOUT_C, TAKEN, RUNNING_JOB])
}

// The effect of the job comes before the fence, and what it left is accepted.
const JOB_BEFORE_THE_FENCE: &str = "\
    accept 0 c -> lease 4
    apply 1 3 -> done
    fence c 0 4 -> last -
    accepted 0 c 4 -> gen 2
    done 1 3 -> refused UnknownJob 1
    booked 0 -> newest 2 a=at:1 b=at:1 c=at:2
    refs c 0 -> refs refs/tags/empty={empty}
    read 0 -> route c gen 2";

#[test]
fn what_is_there_at_the_fence_is_accepted(rt: HostRuntime) -> Result<(), Fail> {
    let tables = [THREE, WITHOUT_C, TAKEN, JOB_BEFORE_THE_FENCE];
    play(rt.alloc(), &tables)
}

// Both have a push. The node of the second one tells of it also when its replica was removed and is
// made again.
const BOTH_COMMITTED: &str = "\
    collect 1 a 1 -> committed {vote} 2/2
    collect 1 b 1 -> committed {vote} 2/2
    commit 1 a -> vote {vote}
    commit 1 b -> vote {vote}
    cast 1 a committed {vote} -> open
    cast 1 b committed {vote} -> committed {vote} 2/2
    finish 1 -> committed 1";

const MADE_AGAIN: &str = "\
    accept 0 b -> lease 3
    fence b 0 3 -> last 2
    factor 0 1 -> assigned a
    reconcile -> jobs 1:delete:0:b
    take b 1 -> job 1 delete 0 b gen 1 lease 4
    remove 1 4 -> done
    done 1 4 -> completed
    accepted 0 b 3 -> refused LeaseLost 4 3
    accepted 0 b 4 -> refused NotBooked
    accept 0 b -> refused NotBooked
    factor 0 2 -> assigned a b
    reconcile -> jobs 2:update:0:a>b
    take b 2 -> job 2 update 0 a>b gen 1 lease 5
    snapshot 2 5 -> snapshot 1 1
    apply 2 5 -> done
    done 2 5 -> completed
    accept 0 b -> lease 6
    fence b 0 6 -> last 2
    accepted 0 b 6 -> gen 2
    booked 0 -> newest 2 a=at:1 b=at:2
    refs b 0 -> refs refs/tags/empty={empty}";

#[test]
fn the_last_lease_outlives_the_replica(rt: HostRuntime) -> Result<(), Fail> {
    let tables = [
        TWO,
        BOTH_MADE,
        BOTH_PREPARED,
        DECIDED,
        BOTH_COMMITTED,
        MADE_AGAIN,
    ];
    play(rt.alloc(), &tables)
}

// A storage is accepted also where it is down, and where it is not assigned any more. Pushes wait
// for an assigned one then, and reads for any that is up.
const DOWN_AND_LEFT: &str = "\
    factor 0 2 -> assigned a b
    health c down -> ok
    accept 0 c -> lease 2
    fence c 0 2 -> last -
    accepted 0 c 2 -> gen 1
    booked 0 -> newest 1 a=at:0 b=at:0 c=at:1
    read 0 -> refused NoCurrentReplica 1 1
    begin 0 -> refused ReadOnly 1 1
    reconcile -> jobs
    health c up -> ok
    read 0 -> route c gen 1
    begin 0 -> refused ReadOnly 1 1
    reconcile -> jobs 1:update:0:c>a 2:update:0:c>b
    take a 1 -> job 1 update 0 c>a gen 1 lease 3
    snapshot 1 3 -> snapshot 0 0
    apply 1 3 -> done
    done 1 3 -> completed
    begin 0 -> begun 1 lease 4 gen 1 members a targets b
    read 0 -> route c gen 1
    read 0 -> route a gen 1";

#[test]
fn a_storage_is_accepted_whether_it_is_up_or_assigned(rt: HostRuntime) -> Result<(), Fail> {
    play(rt.alloc(), &[THREE, DOWN_AND_LEFT])
}

// A push waits for no acceptance, but an acceptance waits for the push. A member keeps the lease of
// the push in place of the one before; a target keeps that one.
const MEMBER: &str = "\
    accept 0 b -> lease 2
    fence b 0 2 -> last -
    begin 0 -> begun 1 lease 3 gen 0 members a b targets -
    accepted 0 b 2 -> refused Turn 1
    accept 0 b -> refused Turn 1
    stop 1 -> ok
    accepted 0 b 2 -> refused Turn 1
    finish 1 -> stopped
    accepted 0 b 2 -> refused LeaseLost 3 2
    accepted 0 b 3 -> refused NotAcked
    booked 0 -> newest 0 a=at:0 b=at:0";

const TARGET: &str = "\
    accept 0 b -> lease 2
    health b down -> ok
    begin 0 -> begun 1 lease 3 gen 0 members a targets b
    fence b 0 2 -> last -
    accepted 0 b 2 -> refused Turn 1
    stop 1 -> ok
    finish 1 -> stopped
    accepted 0 b 3 -> refused LeaseLost 2 3
    accepted 0 b 2 -> gen 1
    booked 0 -> newest 1 a=at:0 b=at:1";

#[test]
fn an_acceptance_waits_for_the_turn(rt: HostRuntime) -> Result<(), Fail> {
    let alloc = rt.alloc();
    play(alloc, &[TWO, BOTH_MADE, MEMBER])?;
    play(alloc, &[TWO, BOTH_MADE, TARGET])
}
