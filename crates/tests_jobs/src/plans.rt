//! The plan of the reconciler.

use crate::cluster_calls::{Cluster, answer};
use std::alloc::Global;
use std::test::Fail;
use tests_tables::play;

/// Three storages that are up.
pub const THREE: &str = "\
    admit v a -> storage 0
    admit v b -> storage 1
    admit v c -> storage 2
    up 0 -> ok
    up 1 -> ok
    up 2 -> ok";

/// Plays two tables, one behind the other, from the empty cluster.
pub fn play_both(alloc: Global, first: &str, second: &str) -> Result<(), Fail> {
    let mut cluster = Cluster::new(alloc);
    play(alloc, &mut cluster, answer, first)?;
    play(alloc, &mut cluster, answer, second)
}

// An assigned replica that is behind is brought up to date from the storage of the least number that
// is up and at the newest generation. The plan changes nothing.
const BEHIND: &str = "\
    plan -> jobs
    plan 0 -> jobs
    create x.git 3 -> repo 0
    plan -> jobs
    accept 0 1 -> ok
    plan -> jobs 1:update:0:1>0 2:update:0:1>2
    plan 0 -> jobs 1:update:0:1>0 2:update:0:1>2
    plan 1 -> jobs
    last -> last 0
    job 1 -> -
    down 1 -> ok
    plan -> jobs
    up 1 -> ok
    down 2 -> ok
    plan -> jobs 1:update:0:1>0
    up 2 -> ok
    at 0 0 1 -> ok
    plan -> jobs 1:update:0:0>2
    absent 0 2 -> ok
    plan -> jobs 1:update:0:0>2
    down 0 -> ok
    plan -> jobs 1:update:0:1>2
    decide 0 2 -> ok
    up 0 -> ok
    plan -> jobs
    at 0 1 2 -> ok
    plan -> jobs 1:update:0:1>0 2:update:0:1>2";

#[test]
fn a_replica_that_is_behind_is_to_be_brought_up_to_date(rt: HostRuntime) -> Result<(), Fail> {
    play_both(rt.alloc(), THREE, BEHIND)
}

// A replica that is not assigned is deleted once each assigned one is at the newest generation, on a
// storage that is up or not. Until then it may be a source.
const TOO_MANY: &str = "\
    create x.git 1 -> repo 0
    plan -> jobs
    at 0 2 0 -> ok
    plan -> jobs 1:delete:0:2
    at 0 1 0 -> ok
    plan -> jobs 1:delete:0:1 2:delete:0:2
    accept 0 1 -> ok
    plan -> jobs 1:update:0:1>0
    at 0 0 1 -> ok
    plan -> jobs 1:delete:0:1 2:delete:0:2
    down 0 -> ok
    plan -> jobs 1:delete:0:1 2:delete:0:2
    down 1 -> ok
    plan -> jobs 1:delete:0:2
    decide 0 2 -> ok
    plan -> jobs
    at 0 0 2 -> ok
    plan -> jobs 1:delete:0:2
    absent 0 2 -> ok
    plan -> jobs";

#[test]
fn a_replica_too_many_is_to_be_deleted(rt: HostRuntime) -> Result<(), Fail> {
    play_both(rt.alloc(), THREE, TOO_MANY)
}

// No job is made for a member of the open push, or where one is ready, in progress or failed. Where
// one is dead, another one is made, and the dead one goes as that comes.
const LOCKED: &str = "\
    create x.git 3 -> repo 0
    accept 0 0 -> ok
    begin 0 0 1 -> ok
    in_push 0 1 -> yes
    in_push 0 2 -> no
    in_push 1 1 -> no
    plan -> jobs 1:update:0:0>2
    end -> ok
    in_push 0 1 -> no
    enqueue -> jobs 1:update:0:0>1 2:update:0:0>2
    last -> last 2
    plan -> jobs
    enqueue -> jobs
    drop 2 -> ok
    plan -> jobs 3:update:0:0>2
    work 1 10 -> 1 update 0 0>1 gen 1 left 2 in_progress beat 10 lease 3
    plan -> jobs 3:update:0:0>2
    fail 1 3 -> failed
    plan -> jobs 3:update:0:0>2
    work 1 11 -> 1 update 0 0>1 gen 1 left 1 in_progress beat 11 lease 4
    fail 1 4 -> failed
    work 1 12 -> 1 update 0 0>1 gen 1 left 0 in_progress beat 12 lease 5
    plan 0 -> jobs 3:update:0:0>2
    fail 1 5 -> dead
    next 1 -> -
    dead 0 1 -> 1 update 0 0>1 gen 1 left 0 dead beat 12 lease 5
    enqueue -> jobs 3:update:0:0>1 4:update:0:0>2
    dead 0 1 -> -
    job 1 -> -
    held 0 1 -> 3 update 0 0>1 gen 1 left 3 ready beat 0 lease 0";

#[test]
fn a_job_is_planned_where_none_holds_the_lock(rt: HostRuntime) -> Result<(), Fail> {
    play_both(rt.alloc(), THREE, LOCKED)
}

// The jobs of two repositories come by their numbers.
const TWO: &str = "\
    create x.git 2 -> repo 0
    create y.git 3 -> repo 1
    accept 0 1 -> ok
    accept 1 2 -> ok
    plan -> jobs 1:update:0:1>0 2:update:1:2>0 3:update:1:2>1
    plan 0 -> jobs 1:update:0:1>0
    plan 1 -> jobs 1:update:1:2>0 2:update:1:2>1
    begin 1 0 -> ok
    enqueue -> jobs 1:update:0:1>0 2:update:1:2>1
    end -> ok
    plan -> jobs 3:update:1:2>0
    held 1 1 -> 2 update 1 2>1 gen 1 left 3 ready beat 0 lease 0";

#[test]
fn two_repositories_are_planned_by_their_numbers(rt: HostRuntime) -> Result<(), Fail> {
    play_both(rt.alloc(), THREE, TWO)
}

// The lines that make a repository, of three storages, and leave two of them behind.
fn add_repository(alloc: Global, table: &mut String, repo: u32) -> Result<(), Fail> {
    let lines = format!(in alloc; "create {repo}.git 3 -> repo {repo}\naccept {repo} 0 -> ok\n")?;
    Ok(table.push_str(lines.as_str())?)
}

fn repositories(alloc: Global, count: u32) -> Result<String, Fail> {
    let mut table = String::new(alloc);
    for repo in 0..count {
        add_repository(alloc, &mut table, repo)?;
    }
    Ok(table)
}

const MANY: &str = "\
    count_plan -> 600
    plan 0 -> jobs 1:update:0:0>1 2:update:0:0>2
    plan 299 -> jobs 1:update:299:0>1 2:update:299:0>2
    plan 300 -> jobs
    down 1 -> ok
    count_enqueued -> 300
    job 1 -> 1 update 0 0>2 gen 1 left 3 ready beat 0 lease 0
    job 300 -> 300 update 299 0>2 gen 1 left 3 ready beat 0 lease 0
    held 150 2 -> 151 update 150 0>2 gen 1 left 3 ready beat 0 lease 0
    count_plan -> 0
    up 1 -> ok
    count_plan -> 300
    plan 7 -> jobs 301:update:7:0>1
    next 2 -> 1 take 0
    at 0 2 1 -> ok
    work 2 10 -> dropped 1
    work 2 10 -> 2 update 1 0>2 gen 1 left 2 in_progress beat 10 lease 3";

#[test]
fn hundreds_of_repositories_are_planned(rt: HostRuntime) -> Result<(), Fail> {
    let alloc = rt.alloc();
    let mut cluster = Cluster::new(alloc);
    play(alloc, &mut cluster, answer, THREE)?;
    play(
        alloc,
        &mut cluster,
        answer,
        repositories(alloc, 300)?.as_str(),
    )?;
    play(alloc, &mut cluster, answer, MANY)
}
