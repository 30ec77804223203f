//! Lines on replication jobs that are refused, or that find nothing to do. Behind each the world is
//! read, which did not change.

use crate::jobs::WITHOUT_C;
use crate::pushes::{BOTH_MADE, BOTH_PREPARED, DECIDED, DOUBT, THREE, TWO};
use crate::scripts::{play, with_each};
use std::test::Fail;

const EMPTY: &str = "\
    take a 1 -> refused UnknownStorage a
    factor 0 0 -> refused UnknownRepo
    beat 1 1 5 -> refused UnknownJob 1
    done 1 1 -> refused UnknownJob 1
    fail 18446744073709551615 0 -> refused UnknownJob 18446744073709551615
    snapshot 1 1 -> refused NotOut
    apply 0 0 -> refused NotOut
    remove 18446744073709551615 18446744073709551614 -> refused NotOut
    stale 18446744073709551615 0 -> stale";

const NO_JOB: &str = "    reconcile -> jobs";

#[test]
fn there_is_no_job_at_first(rt: HostRuntime) -> Result<(), Fail> {
    let alloc = rt.alloc();
    play(alloc, &[with_each(alloc, EMPTY, NO_JOB)?.as_str()])
}

const FACTORS: &str = "\
    factor 1 1 -> refused UnknownRepo
    factor 4294967295 0 -> refused UnknownRepo
    factor 0 0 -> refused BadFactor 2
    factor 0 3 -> refused BadFactor 2
    factor 0 4294967295 -> refused BadFactor 2
    factor 0 2 -> assigned a b
    take a 1 -> nojob
    take c 1 -> refused UnknownStorage c";

const BOTH_ASSIGNED: &str = "\
    booked 0 -> newest 0 a=at:0 b=at:0
    reconcile -> jobs";

const IN_A_PUSH: &str = "\
    factor 0 1 -> refused Turn 1
    factor 0 0 -> refused Turn 1
    factor 0 3 -> refused Turn 1
    factor 1 1 -> refused UnknownRepo";

#[test]
fn a_factor_is_refused_by_what_is_there(rt: HostRuntime) -> Result<(), Fail> {
    let alloc = rt.alloc();
    let before = with_each(alloc, FACTORS, BOTH_ASSIGNED)?;
    let inside = with_each(alloc, IN_A_PUSH, BOTH_ASSIGNED)?;
    let tables = [
        TWO,
        BOTH_MADE,
        before.as_str(),
        "begin 0 -> begun 1 lease 2 gen 0 members a b targets -",
        inside.as_str(),
        "stop 1 -> ok",
        "factor 0 1 -> refused Turn 1",
        "finish 1 -> stopped",
        "factor 0 1 -> assigned a",
    ];
    play(alloc, &tables)
}

const READY: &str = "\
    beat 1 0 5 -> refused BadState ready
    done 1 0 -> refused BadState ready
    fail 1 3 -> refused BadState ready
    beat 2 0 5 -> refused UnknownJob 2
    beat 0 0 5 -> refused UnknownJob 0
    snapshot 1 0 -> refused NotOut
    snapshot 1 3 -> refused NotOut
    apply 1 3 -> refused NotOut
    remove 1 3 -> refused NotOut
    take c 5 -> refused UnknownStorage c
    take a 5 -> nojob";

const IN_DOUBT: &str = "\
    refs b 0 -> refs
    booked 0 -> newest 1 a=at:1 b=doubt:2:0:1
    stale 1000 0 -> stale
    reconcile -> jobs";

// The lease of the job is 3, and that of the push before it is 2.
const TAKEN: &str = "\
    take b 5 -> nojob
    beat 1 2 6 -> refused LeaseLost 3 2
    beat 1 18446744073709551614 6 -> refused LeaseLost 3 18446744073709551614
    done 1 2 -> refused LeaseLost 3 2
    fail 1 4 -> refused LeaseLost 3 4
    done 1 3 -> refused NotAcked
    done 2 3 -> refused UnknownJob 2
    snapshot 1 2 -> refused NotOut
    snapshot 1 4 -> refused NotOut
    snapshot 2 3 -> refused NotOut
    apply 1 3 -> refused NotOut
    apply 1 2 -> refused NotOut
    remove 1 3 -> refused NotOut
    remove 1 2 -> refused NotOut";

// It was taken at the moment 5, which is not silent yet at the moment 4.
const IN_PROGRESS: &str = "\
    refs b 0 -> refs
    booked 0 -> newest 1 a=at:1 b=doubt:2:0:1
    stale 4 0 -> stale
    reconcile -> jobs";

// A snapshot is kept, and is not answered by the target yet.
const KEPT: &str = "\
    done 1 3 -> refused NotAcked
    done 1 2 -> refused LeaseLost 3 2
    remove 1 3 -> refused NotOut
    apply 1 2 -> refused NotOut
    apply 1 4 -> refused NotOut
    apply 2 3 -> refused NotOut
    snapshot 1 4 -> refused NotOut";

#[test]
fn only_the_worker_of_the_job_is_heard(rt: HostRuntime) -> Result<(), Fail> {
    let alloc = rt.alloc();
    let ready = with_each(alloc, READY, IN_DOUBT)?;
    let taken = with_each(alloc, TAKEN, IN_PROGRESS)?;
    let kept = with_each(alloc, KEPT, IN_PROGRESS)?;
    let tables = [
        TWO,
        BOTH_MADE,
        BOTH_PREPARED,
        DECIDED,
        DOUBT,
        "reconcile -> jobs 1:update:0:a>b",
        ready.as_str(),
        "take b 5 -> job 1 update 0 a>b gen 1 lease 3",
        taken.as_str(),
        "snapshot 1 3 -> snapshot 1 1",
        kept.as_str(),
        "apply 1 3 -> done",
        "done 1 3 -> completed",
    ];
    play(alloc, &tables)
}

// What was issued under its lease is still out when the job has gone.
const GONE: &str = "\
    beat 1 3 6 -> refused UnknownJob 1
    done 1 3 -> refused UnknownJob 1
    fail 1 3 -> refused UnknownJob 1
    take c 6 -> nojob
    remove 1 3 -> refused NotOut
    snapshot 1 3 -> snapshot 1 1
    apply 1 3 -> refused Fenced 4
    apply 1 2 -> refused NotOut
    stale 1000 0 -> stale";

const COMPLETED: &str = "\
    refs c 0 -> refs refs/tags/empty={empty}
    booked 0 -> newest 1 a=at:1 b=at:1 c=at:1
    reconcile -> jobs";

const WORKED: &str = "\
    reconcile -> jobs 1:update:0:a>c
    take c 5 -> job 1 update 0 a>c gen 1 lease 3
    snapshot 1 3 -> snapshot 1 1
    apply 1 3 -> done
    done 1 3 -> completed";

#[test]
fn a_job_that_has_ended_is_unknown(rt: HostRuntime) -> Result<(), Fail> {
    let alloc = rt.alloc();
    let gone = with_each(alloc, GONE, COMPLETED)?;
    play(alloc, &[THREE, WITHOUT_C, WORKED, gone.as_str()])
}

// A job that is dead stays until another one comes in its place. What was issued of it is still
// out.
const DEAD: &str = "\
    beat 1 5 6 -> refused BadState dead
    done 1 5 -> refused BadState dead
    fail 1 5 -> refused BadState dead
    fail 1 3 -> refused BadState dead
    take c 6 -> nojob
    stale 1000 0 -> stale
    snapshot 1 5 -> snapshot 1 1
    snapshot 1 6 -> refused NotOut
    apply 1 4 -> refused NotOut";

const DEAD_JOB: &str = "\
    refs c 0 -> refs
    booked 0 -> newest 1 a=at:1 b=at:1 c=at:0";

const THREE_TIMES: &str = "\
    reconcile -> jobs 1:update:0:a>c
    take c 5 -> job 1 update 0 a>c gen 1 lease 3
    fail 1 3 -> failed
    take c 6 -> job 1 update 0 a>c gen 1 lease 4
    stale 7 1 -> stale 1
    beat 1 4 7 -> refused BadState failed
    take c 7 -> job 1 update 0 a>c gen 1 lease 5
    fail 1 5 -> dead";

const IN_ITS_PLACE: &str = "\
    reconcile -> jobs 2:update:0:a>c
    beat 1 5 6 -> refused UnknownJob 1
    apply 1 5 -> done
    refs c 0 -> refs refs/tags/empty={empty}
    booked 0 -> newest 1 a=at:1 b=at:1 c=at:0
    take c 8 -> job 2 update 0 a>c gen 1 lease 6
    snapshot 1 6 -> refused NotOut
    snapshot 2 5 -> refused NotOut
    done 2 6 -> refused NotAcked
    fail 2 6 -> failed";

#[test]
fn a_job_that_is_dead_is_not_taken(rt: HostRuntime) -> Result<(), Fail> {
    let alloc = rt.alloc();
    let dead = with_each(alloc, DEAD, DEAD_JOB)?;
    let tables = [THREE, WITHOUT_C, THREE_TIMES, dead.as_str(), IN_ITS_PLACE];
    play(alloc, &tables)
}

// A delete has no snapshot.
const DELETE: &str = "\
    snapshot 1 2 -> refused NotOut
    apply 1 2 -> refused NotOut
    remove 1 3 -> refused NotOut
    remove 1 1 -> refused NotOut
    remove 2 2 -> refused NotOut
    done 1 2 -> refused NotAcked
    done 1 1 -> refused LeaseLost 2 1
    take b 6 -> nojob";

const BOOKED_ABSENT: &str = "\
    refs b 0 -> refs
    booked 0 -> newest 0 a=at:0 b=absent
    reconcile -> jobs";

const DELETE_TAKEN: &str = "\
    factor 0 1 -> assigned a
    reconcile -> jobs 1:delete:0:b
    take b 5 -> job 1 delete 0 b gen 0 lease 2";

const DELETED: &str = "\
    remove 1 2 -> done
    remove 1 2 -> refused Fenced 3
    refs b 0 -> refused NoRepo
    done 1 2 -> completed
    done 1 2 -> refused UnknownJob 1
    reconcile -> jobs";

#[test]
fn a_delete_has_its_removal_alone(rt: HostRuntime) -> Result<(), Fail> {
    let alloc = rt.alloc();
    let taken = with_each(alloc, DELETE, BOOKED_ABSENT)?;
    let tables = [TWO, BOTH_MADE, DELETE_TAKEN, taken.as_str(), DELETED];
    play(alloc, &tables)
}
