//! Replication jobs, from the plan to their ends.

use crate::pushes::{BOTH_MADE, BOTH_PREPARED, DECIDED, DOUBT, THREE, TWO};
use crate::scripts::play;
use std::test::Fail;

/// Three storages; the first two have a push that the third one lacks, which is up again.
pub const WITHOUT_C: &str = "\
    health c down -> ok
    begin 0 -> begun 1 lease 2 gen 0 members a b targets c
    prepare 1 a {zero}:{empty}:refs/tags/empty with blob: -> vote {vote}
    prepare 1 b {zero}:{empty}:refs/tags/empty with blob: -> vote {vote}
    cast 1 a prepared {vote} -> open
    cast 1 b prepared {vote} -> committed {vote} 2/2
    collect 1 a 1 -> committed {vote} 2/2
    collect 1 b 1 -> committed {vote} 2/2
    commit 1 a -> vote {vote}
    commit 1 b -> vote {vote}
    cast 1 a committed {vote} -> open
    cast 1 b committed {vote} -> committed {vote} 2/2
    finish 1 -> committed 1
    reconcile -> jobs
    health c up -> ok
    booked 0 -> newest 1 a=at:1 b=at:1 c=at:0";

// The worker of the first lease comes late, and so does the commit that was told to the target.
const LATE_WORKER: &str = "\
    reconcile -> jobs 1:update:0:a>b
    take b 100 -> job 1 update 0 a>b gen 1 lease 3
    snapshot 1 3 -> snapshot 1 1
    stale 199 100 -> stale
    stale 200 100 -> stale 1
    take b 200 -> job 1 update 0 a>b gen 1 lease 4
    snapshot 1 4 -> snapshot 1 1
    apply 1 4 -> done
    done 1 4 -> completed
    apply 1 3 -> refused Fenced 5
    done 1 3 -> refused UnknownJob 1
    commit 1 b -> refused Fenced 5
    refs b 0 -> refs refs/tags/empty={empty}
    booked 0 -> newest 1 a=at:1 b=at:1
    reconcile -> jobs
    begin 0 -> begun 2 lease 5 gen 1 members a b targets -";

#[test]
fn a_storage_in_doubt_is_brought_up_to_date(rt: HostRuntime) -> Result<(), Fail> {
    let tables = [TWO, BOTH_MADE, BOTH_PREPARED, DECIDED, DOUBT, LATE_WORKER];
    play(rt.alloc(), &tables)
}

// A delete is booked when it is taken. An update is dead after its third bad end, and another one
// comes in its place.
const FACTORS: &str = "\
    factor 0 3 -> refused BadFactor 2
    factor 0 1 -> assigned a
    reconcile -> jobs 1:delete:0:b
    take b 5 -> job 1 delete 0 b gen 0 lease 2
    booked 0 -> newest 0 a=at:0 b=absent
    remove 1 2 -> done
    done 1 2 -> completed
    refs b 0 -> refused NoRepo
    factor 0 2 -> assigned a b
    reconcile -> jobs 2:update:0:a>b
    take b 6 -> job 2 update 0 a>b gen 0 lease 3
    fail 2 3 -> failed
    take b 7 -> job 2 update 0 a>b gen 0 lease 4
    fail 2 4 -> failed
    take b 8 -> job 2 update 0 a>b gen 0 lease 5
    fail 2 5 -> dead
    reconcile -> jobs 3:update:0:a>b
    take b 9 -> job 3 update 0 a>b gen 0 lease 6
    snapshot 3 6 -> snapshot 0 0
    apply 3 6 -> done
    done 3 6 -> completed
    refs b 0 -> refs
    booked 0 -> newest 0 a=at:0 b=at:0
    begin 0 -> begun 1 lease 7 gen 0 members a b targets -";

#[test]
fn a_storage_is_left_and_added_again(rt: HostRuntime) -> Result<(), Fail> {
    play(rt.alloc(), &[TWO, BOTH_MADE, FACTORS])
}

// The delete was given up before it came to its node.
const DELETE_GIVEN_UP: &str = "\
    factor 0 1 -> assigned a
    reconcile -> jobs 1:delete:0:b
    take b 5 -> job 1 delete 0 b gen 0 lease 2
    booked 0 -> newest 0 a=at:0 b=absent
    fail 1 2 -> failed
    factor 0 2 -> assigned a b
    take b 6 -> dropped 1
    take b 7 -> nojob
    reconcile -> jobs 2:update:0:a>b
    take b 8 -> job 2 update 0 a>b gen 0 lease 3
    snapshot 2 3 -> snapshot 0 0";

// It comes behind the update that makes the replica again, and its lease is older.
const AFTER_THE_UPDATE: &str = "\
    apply 2 3 -> done
    remove 1 2 -> refused Fenced 4
    refs b 0 -> refs
    done 2 3 -> completed
    booked 0 -> newest 0 a=at:0 b=at:0
    begin 0 -> begun 1 lease 4 gen 0 members a b targets -";

// It comes before that, and the update makes the replica anew.
const BEFORE_THE_UPDATE: &str = "\
    remove 1 2 -> done
    refs b 0 -> refused NoRepo
    apply 2 3 -> done
    refs b 0 -> refs
    remove 1 2 -> refused Fenced 4
    done 2 3 -> completed
    refs b 0 -> refs
    booked 0 -> newest 0 a=at:0 b=at:0";

#[test]
fn a_delete_that_comes_late_is_fenced_off(rt: HostRuntime) -> Result<(), Fail> {
    let alloc = rt.alloc();
    play(alloc, &[TWO, BOTH_MADE, DELETE_GIVEN_UP, AFTER_THE_UPDATE])?;
    play(alloc, &[TWO, BOTH_MADE, DELETE_GIVEN_UP, BEFORE_THE_UPDATE])
}

/// A worker takes the job that brings the third one up to date, and a snapshot for it.
pub const TAKEN: &str = "\
    reconcile -> jobs 1:update:0:a>c
    take c 10 -> job 1 update 0 a>c gen 1 lease 3
    snapshot 1 3 -> snapshot 1 1";

// The first two storages have one more push.
const NEXT_PUSH: &str = "\
    begin 0 -> begun 2 lease 4 gen 1 members a b targets c
    prepare 2 a {empty}:{one}:refs/tags/empty with blob:6f6e650a -> vote {moved}
    prepare 2 b {empty}:{one}:refs/tags/empty with blob:6f6e650a -> vote {moved}
    cast 2 a prepared {moved} -> open
    cast 2 b prepared {moved} -> committed {moved} 2/2
    collect 2 a 1 -> committed {moved} 2/2
    collect 2 b 1 -> committed {moved} 2/2
    commit 2 a -> vote {moved}
    commit 2 b -> vote {moved}
    cast 2 a committed {moved} -> open
    cast 2 b committed {moved} -> committed {moved} 2/2
    finish 2 -> committed 2
    booked 0 -> newest 2 a=at:2 b=at:2 c=at:0";

const OLDER_CONTENT: &str = "\
    apply 1 3 -> done
    refs c 0 -> refs refs/tags/empty={empty}";

// A later snapshot goes in the place of the one that was kept.
const NEWER_CONTENT: &str = "\
    snapshot 1 3 -> snapshot 1 1
    apply 1 3 -> done
    refs c 0 -> refs refs/tags/empty={one}";

// What is booked is the generation that was newest when the job was taken.
const BEHIND_AGAIN: &str = "\
    reconcile -> jobs
    done 1 3 -> completed
    booked 0 -> newest 2 a=at:2 b=at:2 c=at:1
    reconcile -> jobs 2:update:0:a>c
    take c 11 -> job 2 update 0 a>c gen 2 lease 5
    snapshot 2 5 -> snapshot 1 1
    apply 2 5 -> done
    done 2 5 -> completed
    refs c 0 -> refs refs/tags/empty={one}
    booked 0 -> newest 2 a=at:2 b=at:2 c=at:2
    reconcile -> jobs";

#[test]
fn a_job_brings_the_generation_that_it_was_taken_for(rt: HostRuntime) -> Result<(), Fail> {
    let alloc = rt.alloc();
    for content in [OLDER_CONTENT, NEWER_CONTENT] {
        let tables = [THREE, WITHOUT_C, TAKEN, NEXT_PUSH, content, BEHIND_AGAIN];
        play(alloc, &tables)?;
    }
    Ok(())
}

// A push while the job was failed: it is taken again for the newest generation.
const TAKEN_AGAIN: &str = "\
    fail 1 3 -> failed
    take c 11 -> job 1 update 0 a>c gen 2 lease 5
    apply 1 5 -> refused NotOut
    apply 1 3 -> done
    refs c 0 -> refs refs/tags/empty={empty}
    snapshot 1 5 -> snapshot 1 1
    apply 1 5 -> done
    refs c 0 -> refs refs/tags/empty={one}
    apply 1 3 -> refused Fenced 6
    done 1 5 -> completed
    booked 0 -> newest 2 a=at:2 b=at:2 c=at:2";

#[test]
fn a_job_is_taken_again_for_the_newest_generation(rt: HostRuntime) -> Result<(), Fail> {
    let tables = [THREE, WITHOUT_C, TAKEN, NEXT_PUSH, TAKEN_AGAIN];
    play(rt.alloc(), &tables)
}

// Silent for too long, the first worker is not heard any more, though its effect comes to the node.
const SILENT_WORKER: &str = "\
    beat 1 3 9 -> ok
    stale 19 10 -> stale
    beat 1 3 50 -> ok
    stale 49 0 -> stale
    stale 59 10 -> stale
    stale 60 10 -> stale 1
    beat 1 3 61 -> refused BadState failed
    done 1 3 -> refused BadState failed
    fail 1 3 -> refused BadState failed
    take c 70 -> job 1 update 0 a>c gen 1 lease 4
    beat 1 3 71 -> refused LeaseLost 4 3
    apply 1 3 -> done
    refs c 0 -> refs refs/tags/empty={empty}
    done 1 3 -> refused LeaseLost 4 3
    done 1 4 -> refused NotAcked
    booked 0 -> newest 1 a=at:1 b=at:1 c=at:0
    snapshot 1 4 -> snapshot 1 1
    apply 1 4 -> done
    apply 1 4 -> refused Fenced 5
    apply 1 3 -> refused Fenced 5
    done 1 4 -> completed
    booked 0 -> newest 1 a=at:1 b=at:1 c=at:1
    snapshot 1 3 -> snapshot 1 1
    apply 1 3 -> refused Fenced 5";

#[test]
fn a_silent_worker_loses_its_job(rt: HostRuntime) -> Result<(), Fail> {
    play(rt.alloc(), &[THREE, WITHOUT_C, TAKEN, SILENT_WORKER])
}

// The source is the one that was kept, as long as that is up and newest; without one the job waits.
const SOURCES: &str = "\
    reconcile -> jobs 1:update:0:a>c
    health a down -> ok
    take c 1 -> job 1 update 0 b>c gen 1 lease 3
    fail 1 3 -> failed
    health a up -> ok
    take c 2 -> job 1 update 0 b>c gen 1 lease 4
    snapshot 1 4 -> snapshot 1 1
    fail 1 4 -> failed
    health a down -> ok
    health b down -> ok
    take c 3 -> nojob
    reconcile -> jobs
    health a up -> ok
    take c 4 -> job 1 update 0 a>c gen 1 lease 5
    fail 1 5 -> dead
    take c 5 -> nojob
    health c down -> ok
    reconcile -> jobs
    health c up -> ok
    reconcile -> jobs 2:update:0:a>c
    take c 6 -> job 2 update 0 a>c gen 1 lease 6
    done 2 6 -> refused NotAcked
    snapshot 2 6 -> snapshot 1 1
    apply 2 6 -> done
    done 2 6 -> completed
    refs c 0 -> refs refs/tags/empty={empty}";

#[test]
fn a_job_keeps_its_source_while_it_can(rt: HostRuntime) -> Result<(), Fail> {
    play(rt.alloc(), &[THREE, WITHOUT_C, SOURCES])
}

// The source is deleted under the job. A snapshot that was kept stays, and is applied.
const SOURCE_GOES: &str = "\
    health a down -> ok
    factor 0 1 -> assigned b
    health a up -> ok
    reconcile -> jobs 2:delete:0:a
    take a 11 -> job 2 delete 0 a gen 1 lease 4
    snapshot 1 3 -> snapshot 1 1
    remove 2 4 -> done
    snapshot 1 3 -> refused NoRepo
    done 2 4 -> completed
    apply 1 3 -> done
    refs c 0 -> refs refs/tags/empty={empty}
    done 1 3 -> completed
    booked 0 -> newest 1 a=absent b=at:1 c=at:1
    reconcile -> jobs 3:delete:0:c
    take c 12 -> job 3 delete 0 c gen 1 lease 5
    remove 3 5 -> done
    done 3 5 -> completed
    refs c 0 -> refused NoRepo
    refs a 0 -> refused NoRepo
    refs b 0 -> refs refs/tags/empty={empty}
    begin 0 -> begun 2 lease 6 gen 1 members b targets -";

#[test]
fn a_snapshot_outlives_its_source(rt: HostRuntime) -> Result<(), Fail> {
    play(rt.alloc(), &[THREE, WITHOUT_C, TAKEN, SOURCE_GOES])
}
