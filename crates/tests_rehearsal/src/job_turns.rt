//! Replication jobs beside open pushes, and those of several repositories.

use crate::pushes::{BOTH_MADE, THREE, TWO};
use crate::scripts::play;
use std::test::Fail;

// The delete of a member is passed over until the push has ended. It is dropped then, as its target
// is assigned again.
const MEMBER: &str = "\
    factor 0 1 -> assigned a
    reconcile -> jobs 1:delete:0:b
    factor 0 2 -> assigned a b
    begin 0 -> begun 1 lease 2 gen 0 members a b targets -
    take b 1 -> nojob
    take a 1 -> nojob
    reconcile -> jobs
    stop 1 -> ok
    take b 2 -> nojob
    finish 1 -> stopped
    take b 3 -> dropped 1
    take b 4 -> nojob
    reconcile -> jobs
    booked 0 -> newest 0 a=at:0 b=at:0
    beat 1 2 5 -> refused UnknownJob 1";

#[test]
fn the_job_of_a_member_is_passed_over(rt: HostRuntime) -> Result<(), Fail> {
    play(rt.alloc(), &[TWO, BOTH_MADE, MEMBER])
}

// A target of the open push gets its job as soon as the first member has confirmed. A member in
// doubt gets one once the push has ended.
const IN_DOUBT: &str = "\
    health c down -> ok
    begin 0 -> begun 1 lease 2 gen 0 members a b targets c
    prepare 1 a {zero}:{empty}:refs/tags/empty with blob: -> vote {vote}
    prepare 1 b {zero}:{empty}:refs/tags/empty with blob: -> vote {vote}
    cast 1 a prepared {vote} -> open
    health c up -> ok
    reconcile -> jobs
    cast 1 b prepared {vote} -> committed {vote} 2/2
    reconcile -> jobs
    collect 1 a 1 -> committed {vote} 2/2
    commit 1 a -> vote {vote}
    cast 1 a committed {vote} -> open
    booked 0 -> newest 1 a=at:1 b=doubt:2:0:1 c=at:0
    reconcile -> jobs 1:update:0:a>c
    take c 1 -> job 1 update 0 a>c gen 1 lease 3
    snapshot 1 3 -> snapshot 1 1
    apply 1 3 -> done
    done 1 3 -> completed
    booked 0 -> newest 1 a=at:1 b=doubt:2:0:1 c=at:1
    reconcile -> jobs
    withdraw 1 b -> ok
    finish 1 -> unsure 1
    reconcile -> jobs 2:update:0:a>b
    begin 0 -> begun 2 lease 4 gen 1 members a c targets b
    take b 2 -> job 2 update 0 a>b gen 1 lease 5
    snapshot 2 5 -> snapshot 1 1
    apply 2 5 -> done
    refs b 0 -> refs refs/tags/empty={empty}
    done 2 5 -> completed
    booked 0 -> newest 1 a=at:1 b=at:1 c=at:1
    prepare 2 b {empty}:{one}:refs/tags/empty with blob:6f6e650a -> refused NotOut
    finish 2 -> refused StillOpen
    stop 2 -> ok
    finish 2 -> stopped
    begin 0 -> begun 3 lease 6 gen 1 members a b c targets -";

#[test]
fn a_target_is_brought_up_to_date_beside_a_push(rt: HostRuntime) -> Result<(), Fail> {
    play(rt.alloc(), &[THREE, IN_DOUBT])
}

// A job is of one repository: it is numbered among all, has a lease of its own repository, and its
// effect is for that alone. The creation of the second repository comes late to one of its two
// storages.
const TWO_REPOSITORIES: &str = "\
    create default y.git 0 -> created 1 lease 1 assigned a b
    make a 1 1 -> done
    enrol 1 a 1 -> ok
    reconcile -> jobs 1:update:1:a>b
    factor 0 1 -> assigned a
    reconcile -> jobs 2:delete:0:b
    take b 1 -> job 1 update 1 a>b gen 0 lease 2
    take b 2 -> job 2 delete 0 b gen 0 lease 2
    take b 3 -> nojob
    take a 3 -> nojob
    booked 0 -> newest 0 a=at:0 b=absent
    booked 1 -> newest 0 a=at:0 b=absent
    snapshot 2 2 -> refused NotOut
    remove 1 2 -> refused NotOut
    snapshot 1 2 -> snapshot 0 0
    apply 2 2 -> refused NotOut
    remove 2 2 -> done
    refs b 0 -> refused NoRepo
    refs b 1 -> refused NoRepo
    done 1 2 -> refused NotAcked
    apply 1 2 -> done
    refs b 1 -> refs
    refs b 0 -> refused NoRepo
    done 2 2 -> completed
    done 1 2 -> completed
    booked 0 -> newest 0 a=at:0 b=absent
    booked 1 -> newest 0 a=at:0 b=at:0
    make b 1 1 -> refused Fenced 3
    enrol 1 b 1 -> refused LeaseLost 2 1
    refs b 1 -> refs
    reconcile -> jobs
    begin 0 -> begun 1 lease 3 gen 0 members a targets -
    begin 1 -> begun 2 lease 3 gen 0 members a b targets -";

#[test]
fn jobs_of_two_repositories_are_apart(rt: HostRuntime) -> Result<(), Fail> {
    play(rt.alloc(), &[TWO, BOTH_MADE, TWO_REPOSITORIES])
}

// Several jobs of a storage come by their numbers, also one that has failed. One is stale, and the
// other is not.
const IN_ORDER: &str = "\
    create default y.git 2 -> created 1 lease 1 assigned a b
    make a 1 1 -> done
    enrol 1 a 1 -> ok
    create default z.git 2 -> created 2 lease 1 assigned a b
    make b 2 1 -> done
    enrol 2 b 1 -> ok
    create other x.git 0 -> refused UnknownVirtual other
    factor 0 1 -> assigned a
    reconcile -> jobs 1:delete:0:b 2:update:1:a>b 3:update:2:b>a
    take b 10 -> job 1 delete 0 b gen 0 lease 2
    take b 20 -> job 2 update 1 a>b gen 0 lease 2
    take a 30 -> job 3 update 2 b>a gen 0 lease 2
    beat 1 2 25 -> ok
    stale 30 5 -> stale 1 2
    take b 31 -> job 1 delete 0 b gen 0 lease 3
    stale 40 10 -> stale 3
    take b 41 -> job 2 update 1 a>b gen 0 lease 3
    fail 1 3 -> failed
    take b 42 -> job 1 delete 0 b gen 0 lease 4
    stale 42 0 -> stale 1 2
    take b 43 -> job 2 update 1 a>b gen 0 lease 4
    take a 44 -> job 3 update 2 b>a gen 0 lease 3
    take b 45 -> nojob
    snapshot 3 3 -> snapshot 0 0
    apply 3 3 -> done
    done 3 3 -> completed
    booked 2 -> newest 0 a=at:0 b=at:0
    booked 0 -> newest 0 a=at:0 b=absent";

#[test]
fn jobs_of_a_storage_come_in_order(rt: HostRuntime) -> Result<(), Fail> {
    play(rt.alloc(), &[TWO, BOTH_MADE, IN_ORDER])
}
