//! The queue, as jobs come, are taken and end.

use crate::queue_calls::answer;
use replqueue::Queue;
use std::alloc::Global;
use std::test::Fail;
use tests_tables::play;

// Nothing is found, and what is asked of a job that is not there changes nothing.
const EMPTY: &str = "\
    last -> last 0
    job 0 -> -
    job 1 -> -
    held 0 0 -> -
    dead 0 0 -> -
    beat 1 0 5 -> UnknownJob 1
    done 1 0 -> UnknownJob 1
    fail 18446744073709551615 0 -> UnknownJob 18446744073709551615
    take 1 1 4 100 7 -> not to be taken
    stale 18446744073709551615 0 -> stale
    drop 1 -> ok
    reserve 1 -> ok
    lift 0 0 -> ok
    enqueue -> last 0
    job 1 -> -";

#[test]
fn the_empty_queue_has_nothing(rt: HostRuntime) -> Result<(), Fail> {
    play(rt.alloc(), &mut Queue::new(rt.alloc()), answer, EMPTY)
}

// A job is taken three times, and is dead after the third bad end. The worker of an earlier lease is
// not heard. The dead job goes where a new one of its repository and target comes.
const ATTEMPTS: &str = "\
    enqueue update:0:1>2 -> last 1
    last -> last 1
    job 1 -> 1 update 0 1>2 gen 4 left 3 ready beat 0 lease 0
    held 0 2 -> 1 update 0 1>2 gen 4 left 3 ready beat 0 lease 0
    held 0 1 -> -
    held 2 0 -> -
    dead 0 2 -> -
    job 2 -> -
    beat 1 0 5 -> BadState ready
    done 1 0 -> BadState ready
    fail 1 9 -> BadState ready
    take 1 3 6 100 7 -> ok
    job 1 -> 1 update 0 3>2 gen 6 left 2 in_progress beat 100 lease 7
    held 0 2 -> 1 update 0 3>2 gen 6 left 2 in_progress beat 100 lease 7
    take 1 3 6 100 8 -> not to be taken
    beat 1 8 200 -> LeaseLost 7 8
    done 1 0 -> LeaseLost 7 0
    fail 1 6 -> LeaseLost 7 6
    beat 2 7 200 -> UnknownJob 2
    job 1 -> 1 update 0 3>2 gen 6 left 2 in_progress beat 100 lease 7
    fail 1 7 -> failed
    job 1 -> 1 update 0 3>2 gen 6 left 2 failed beat 100 lease 7
    held 0 2 -> 1 update 0 3>2 gen 6 left 2 failed beat 100 lease 7
    dead 0 2 -> -
    beat 1 7 200 -> BadState failed
    fail 1 7 -> BadState failed
    take 1 1 6 50 8 -> ok
    job 1 -> 1 update 0 1>2 gen 6 left 1 in_progress beat 50 lease 8
    done 1 7 -> LeaseLost 8 7
    fail 1 8 -> failed
    take 1 1 9 51 10 -> ok
    job 1 -> 1 update 0 1>2 gen 9 left 0 in_progress beat 51 lease 10
    fail 1 10 -> dead
    job 1 -> 1 update 0 1>2 gen 9 left 0 dead beat 51 lease 10
    dead 0 2 -> 1 update 0 1>2 gen 9 left 0 dead beat 51 lease 10
    held 0 2 -> -
    take 1 1 9 52 11 -> not to be taken
    beat 1 10 60 -> BadState dead
    done 1 10 -> BadState dead
    stale 1000 0 -> stale
    lift 0 2 -> ok
    enqueue update:0:1>3 -> last 2
    dead 0 2 -> 1 update 0 1>2 gen 9 left 0 dead beat 51 lease 10
    enqueue update:0:3>2 -> last 3
    dead 0 2 -> -
    job 1 -> -
    held 0 2 -> 3 update 0 3>2 gen 4 left 3 ready beat 0 lease 0
    held 0 3 -> 2 update 0 1>3 gen 4 left 3 ready beat 0 lease 0";

#[test]
fn a_job_is_dead_after_its_third_bad_end(rt: HostRuntime) -> Result<(), Fail> {
    play(rt.alloc(), &mut Queue::new(rt.alloc()), answer, ATTEMPTS)
}

// A beat never goes back. A worker is silent for too long exactly from the moment on at which the
// silence is as long as is told; a beat that is later than now is none of a silent worker.
const SILENCE: &str = "\
    enqueue update:0:1>2 -> last 1
    take 1 1 4 100 7 -> ok
    beat 1 7 99 -> ok
    job 1 -> 1 update 0 1>2 gen 4 left 2 in_progress beat 100 lease 7
    beat 1 7 200 -> ok
    job 1 -> 1 update 0 1>2 gen 4 left 2 in_progress beat 200 lease 7
    stale 299 100 -> stale
    stale 199 0 -> stale
    stale 200 1 -> stale
    job 1 -> 1 update 0 1>2 gen 4 left 2 in_progress beat 200 lease 7
    stale 300 100 -> stale 1
    job 1 -> 1 update 0 1>2 gen 4 left 2 failed beat 200 lease 7
    stale 300 100 -> stale
    beat 1 7 301 -> BadState failed
    take 1 1 4 300 8 -> ok
    stale 300 0 -> stale 1
    take 1 1 4 18446744073709551615 9 -> ok
    stale 18446744073709551614 0 -> stale
    stale 18446744073709551615 1 -> stale
    stale 18446744073709551615 0 -> stale 1
    job 1 -> 1 update 0 1>2 gen 4 left 0 dead beat 18446744073709551615 lease 9
    stale 18446744073709551615 0 -> stale";

#[test]
fn a_worker_is_silent_for_too_long_from_a_moment_on(rt: HostRuntime) -> Result<(), Fail> {
    play(rt.alloc(), &mut Queue::new(rt.alloc()), answer, SILENCE)
}

// A job goes where it ends well, is dropped, or is lifted while it is in progress. Its number is not
// given again.
const GONE: &str = "\
    enqueue delete:0:2 -> last 1
    job 1 -> 1 delete 0 2 gen 4 left 3 ready beat 0 lease 0
    take 1 - 5 10 7 -> ok
    job 1 -> 1 delete 0 2 gen 5 left 2 in_progress beat 10 lease 7
    done 1 7 -> completed
    job 1 -> -
    held 0 2 -> -
    done 1 7 -> UnknownJob 1
    enqueue update:0:1>2 -> last 2
    drop 2 -> ok
    job 2 -> -
    held 0 2 -> -
    drop 2 -> ok
    enqueue update:0:1>2 -> last 3
    lift 0 2 -> ok
    held 0 2 -> 3 update 0 1>2 gen 4 left 3 ready beat 0 lease 0
    take 3 1 4 11 8 -> ok
    lift 0 1 -> ok
    lift 1 2 -> ok
    held 0 2 -> 3 update 0 1>2 gen 4 left 2 in_progress beat 11 lease 8
    lift 0 2 -> ok
    held 0 2 -> -
    beat 3 8 12 -> UnknownJob 3
    stale 100 0 -> stale
    enqueue update:0:1>2 -> last 4
    take 4 1 4 12 9 -> ok
    fail 4 9 -> failed
    lift 0 2 -> ok
    job 4 -> 4 update 0 1>2 gen 4 left 2 failed beat 12 lease 9
    drop 4 -> ok
    enqueue -> last 4";

#[test]
fn a_job_goes_for_good(rt: HostRuntime) -> Result<(), Fail> {
    play(rt.alloc(), &mut Queue::new(rt.alloc()), answer, GONE)
}

// Three jobs come at once. What becomes of one leaves the others alone.
const THREE: &str = "\
    enqueue update:0:1>2 delete:0:3 update:7:0>2 -> last 3
    job 1 -> 1 update 0 1>2 gen 4 left 3 ready beat 0 lease 0
    job 2 -> 2 delete 0 3 gen 4 left 3 ready beat 0 lease 0
    job 3 -> 3 update 7 0>2 gen 4 left 3 ready beat 0 lease 0
    held 7 2 -> 3 update 7 0>2 gen 4 left 3 ready beat 0 lease 0
    held 7 3 -> -
    reserve 3 -> ok
    job 3 -> 3 update 7 0>2 gen 4 left 3 ready beat 0 lease 0
    stale 100 0 -> stale
    take 3 0 4 5 1 -> ok
    take 1 1 4 6 1 -> ok
    take 2 - 4 7 2 -> ok
    stale 6 0 -> stale 1 3
    job 2 -> 2 delete 0 3 gen 4 left 2 in_progress beat 7 lease 2
    take 1 1 4 7 3 -> ok
    take 3 0 4 7 2 -> ok
    beat 3 2 8 -> ok
    stale 17 10 -> stale 1 2
    job 3 -> 3 update 7 0>2 gen 4 left 1 in_progress beat 8 lease 2
    take 1 1 4 18 4 -> ok
    fail 1 4 -> dead
    take 2 - 4 18 5 -> ok
    fail 2 5 -> failed
    take 2 - 4 19 6 -> ok
    fail 2 6 -> dead
    dead 0 2 -> 1 update 0 1>2 gen 4 left 0 dead beat 18 lease 4
    dead 0 3 -> 2 delete 0 3 gen 4 left 0 dead beat 19 lease 6
    enqueue update:1:0>2 update:0:1>3 update:0:1>4 -> last 6
    dead 0 2 -> 1 update 0 1>2 gen 4 left 0 dead beat 18 lease 4
    dead 0 3 -> -
    held 0 3 -> 5 update 0 1>3 gen 4 left 3 ready beat 0 lease 0
    done 3 2 -> completed
    job 2 -> -
    job 4 -> 4 update 1 0>2 gen 4 left 3 ready beat 0 lease 0
    job 6 -> 6 update 0 1>4 gen 4 left 3 ready beat 0 lease 0";

#[test]
fn each_job_is_changed_alone(rt: HostRuntime) -> Result<(), Fail> {
    play(rt.alloc(), &mut Queue::new(rt.alloc()), answer, THREE)
}

// Jobs of one target, from that of the repository 0 on. Each is taken at the moment of its number.
fn take_many(alloc: Global, queue: &mut Queue, count: u32) -> Result<(), Fail> {
    for repo in 0..count {
        let job = format!(in alloc; "update:{repo}:1>2")?;
        answer(alloc, queue, "enqueue", job.as_str())?;
        let number = queue.last().0;
        let taking = format!(in alloc; "{number} 1 4 {number} 9")?;
        answer(alloc, queue, "take", taking.as_str())?;
    }
    Ok(())
}

const MANY: &str = "\
    last -> last 300
    job 1 -> 1 update 0 1>2 gen 4 left 2 in_progress beat 1 lease 9
    job 300 -> 300 update 299 1>2 gen 4 left 2 in_progress beat 300 lease 9
    job 301 -> -
    held 149 2 -> 150 update 149 1>2 gen 4 left 2 in_progress beat 150 lease 9
    held 300 2 -> -
    done 150 9 -> completed
    held 149 2 -> -
    held 150 2 -> 151 update 150 1>2 gen 4 left 2 in_progress beat 151 lease 9
    count_stale 200 0 -> 199 stale
    job 200 -> 200 update 199 1>2 gen 4 left 2 failed beat 200 lease 9
    job 201 -> 201 update 200 1>2 gen 4 left 2 in_progress beat 201 lease 9
    stale 304 100 -> stale 201 202 203 204
    lift 299 2 -> ok
    count_stale 1000 0 -> 95 stale
    count_stale 1000 0 -> 0 stale
    job 300 -> -";

#[test]
fn hundreds_of_jobs_are_found(rt: HostRuntime) -> Result<(), Fail> {
    let alloc = rt.alloc();
    let mut queue = Queue::new(alloc);
    take_many(alloc, &mut queue, 300)?;
    play(alloc, &mut queue, answer, MANY)
}
