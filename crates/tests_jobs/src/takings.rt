//! What becomes of the next job of a storage.

use crate::plans::{THREE, play_both};
use std::test::Fail;

// An update is taken from its source, as long as that may be one, and else from that of the least
// number. Without one it is passed over. Where its target is at the newest generation, it is dropped.
const UPDATES: &str = "\
    create x.git 3 -> repo 0
    accept 0 1 -> ok
    next 0 -> -
    enqueue -> jobs 1:update:0:1>0 2:update:0:1>2
    next 0 -> 1 take 1
    next 1 -> -
    next 2 -> 2 take 1
    next 9 -> -
    taking 1 -> take 1
    at 0 0 1 -> ok
    next 0 -> 1 drop
    taking 1 -> drop
    next 2 -> 2 take 1
    down 1 -> ok
    next 2 -> 2 take 0
    down 0 -> ok
    next 2 -> -
    taking 2 -> pass over
    next 0 -> 1 drop
    up 0 -> ok
    up 1 -> ok
    down 2 -> ok
    next 2 -> 2 take 1
    begin 0 0 2 -> ok
    next 2 -> -
    taking 2 -> pass over
    taking 1 -> pass over
    end -> ok
    next 0 -> 1 drop
    work 2 100 -> 2 update 0 1>2 gen 1 left 2 in_progress beat 100 lease 3
    next 2 -> -
    work 2 101 -> nojob
    fail 2 3 -> failed
    next 2 -> 2 take 1
    down 1 -> ok
    work 2 102 -> 2 update 0 0>2 gen 1 left 1 in_progress beat 102 lease 4
    fail 2 4 -> failed
    up 1 -> ok
    next 2 -> 2 take 0
    accept 0 1 -> ok
    next 2 -> 2 take 1
    next 0 -> 1 take 1
    work 2 103 -> 2 update 0 1>2 gen 2 left 0 in_progress beat 103 lease 6
    work 0 104 -> 1 update 0 1>0 gen 2 left 2 in_progress beat 104 lease 7
    done 2 6 -> completed
    done 1 7 -> completed
    next 0 -> -
    next 2 -> -
    job 1 -> -";

#[test]
fn an_update_has_a_source_or_waits(rt: HostRuntime) -> Result<(), Fail> {
    play_both(rt.alloc(), THREE, UPDATES)
}

// A delete is taken on a storage that is up or not, and is dropped where some assigned replica is not
// at the newest generation.
const DELETES: &str = "\
    create x.git 1 -> repo 0
    at 0 1 0 -> ok
    at 0 2 0 -> ok
    enqueue -> jobs 1:delete:0:1 2:delete:0:2
    next 1 -> 1 take -
    down 1 -> ok
    next 1 -> 1 take -
    begin 0 1 -> ok
    next 1 -> -
    end -> ok
    work 1 5 -> 1 delete 0 1 gen 0 left 2 in_progress beat 5 lease 2
    next 1 -> -
    next 2 -> 2 take -
    accept 0 2 -> ok
    next 2 -> 2 drop
    work 2 6 -> dropped 2
    job 2 -> -
    work 2 7 -> nojob
    done 1 2 -> completed";

#[test]
fn a_delete_is_taken_or_dropped(rt: HostRuntime) -> Result<(), Fail> {
    play_both(rt.alloc(), THREE, DELETES)
}

// An update of a replica that is not assigned is dropped, and so is a delete of one that is. A job of a
// repository that is not there is passed over.
const WITHOUT_A_USE: &str = "\
    create x.git 1 -> repo 0
    accept 0 0 -> ok
    enqueue update:0:0>1 delete:0:0 update:1:0>2 -> last 3
    next 1 -> 1 drop
    next 0 -> 2 drop
    next 2 -> -
    taking 3 -> pass over
    taking 4 -> -
    at 0 1 0 -> ok
    next 1 -> 1 drop
    work 1 1 -> dropped 1
    work 0 1 -> dropped 2
    work 2 1 -> nojob
    last -> last 3
    create y.git 3 -> repo 1
    next 2 -> 3 drop
    accept 1 1 -> ok
    next 2 -> 3 take 1";

#[test]
fn a_job_without_a_use_is_dropped(rt: HostRuntime) -> Result<(), Fail> {
    play_both(rt.alloc(), THREE, WITHOUT_A_USE)
}

// The jobs of a storage come by their numbers, one that has failed too.
const IN_ORDER: &str = "\
    create x.git 2 -> repo 0
    create y.git 2 -> repo 1
    accept 0 0 -> ok
    accept 1 0 -> ok
    enqueue -> jobs 1:update:0:0>1 2:update:1:0>1
    next 1 -> 1 take 0
    begin 0 0 1 -> ok
    next 1 -> 2 take 0
    end -> ok
    work 1 10 -> 1 update 0 0>1 gen 1 left 2 in_progress beat 10 lease 3
    next 1 -> 2 take 0
    fail 1 3 -> failed
    next 1 -> 1 take 0
    work 1 11 -> 1 update 0 0>1 gen 1 left 1 in_progress beat 11 lease 4
    work 1 12 -> 2 update 1 0>1 gen 1 left 2 in_progress beat 12 lease 3
    work 1 13 -> nojob
    stale 22 11 -> stale 1
    next 1 -> 1 take 0
    lift 1 1 -> ok
    job 2 -> -";

#[test]
fn jobs_of_a_storage_come_in_order(rt: HostRuntime) -> Result<(), Fail> {
    play_both(rt.alloc(), THREE, IN_ORDER)
}
