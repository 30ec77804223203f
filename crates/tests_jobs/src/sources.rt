//! What a replica may be brought up to date from.

use crate::cluster_calls::{Cluster, answer};
use std::alloc::Global;
use std::test::Fail;
use tests_tables::play;

// A source is up, at the newest generation, and not the target. The one that was kept goes before that
// of the least number.
const THREE: &str = "\
    admit v a -> storage 0
    admit v b -> storage 1
    admit v c -> storage 2
    create x.git 3 -> repo 0
    are_newest 0 -> yes
    first_source 0 0 -> -
    source_for 0 0 - -> -
    source_for 0 0 1 -> -
    up 2 -> ok
    first_source 0 0 -> 2
    first_source 0 2 -> -
    has_source 0 0 2 -> yes
    has_source 0 0 1 -> no
    has_source 0 2 2 -> no
    source_for 0 0 - -> 2
    source_for 0 0 1 -> 2
    source_for 0 2 2 -> -
    up 1 -> ok
    first_source 0 0 -> 1
    source_for 0 0 - -> 1
    source_for 0 0 2 -> 2
    source_for 0 0 7 -> 1
    has_source 0 0 7 -> no
    up 0 -> ok
    first_source 0 1 -> 0
    accept 0 2 -> ok
    are_newest 0 -> no
    first_source 0 0 -> 2
    first_source 0 2 -> -
    source_for 0 0 1 -> 2
    has_source 0 0 1 -> no
    at 0 1 1 -> ok
    are_newest 0 -> no
    at 0 0 1 -> ok
    are_newest 0 -> yes
    down 0 -> ok
    are_newest 0 -> yes
    first_source 0 1 -> 2
    decide 0 1 -> ok
    are_newest 0 -> no
    first_source 0 0 -> -
    has_source 0 0 2 -> no
    absent 0 1 -> ok
    first_source 0 0 -> -";

#[test]
fn a_source_is_up_and_newest(rt: HostRuntime) -> Result<(), Fail> {
    play(rt.alloc(), &mut Cluster::new(rt.alloc()), answer, THREE)
}

// A replica that is not assigned may be a source, and need not be at the newest generation.
const UNASSIGNED: &str = "\
    admit v a -> storage 0
    admit v b -> storage 1
    create x.git 1 -> repo 0
    up 1 -> ok
    first_source 0 0 -> -
    are_newest 0 -> yes
    at 0 1 0 -> ok
    first_source 0 0 -> 1
    accept 0 0 -> ok
    are_newest 0 -> yes
    first_source 0 0 -> -";

#[test]
fn a_source_need_not_be_assigned(rt: HostRuntime) -> Result<(), Fail> {
    play(
        rt.alloc(),
        &mut Cluster::new(rt.alloc()),
        answer,
        UNASSIGNED,
    )
}

// The lines that admit storages and raise them.
fn storages(alloc: Global, count: u32) -> Result<String, Fail> {
    let mut table = String::new(alloc);
    for number in 0..count {
        let lines = format!(in alloc;
            "admit v s{number} -> storage {number}\nup {number} -> ok\n"
        )?;
        table.push_str(lines.as_str())?;
    }
    Ok(table)
}

const MOST: &str = "\
    create x.git 64 -> repo 0
    first_source 0 63 -> 0
    source_for 0 0 63 -> 63
    accept 0 63 -> ok
    first_source 0 0 -> 63
    source_for 0 0 40 -> 63
    at 0 40 1 -> ok
    first_source 0 0 -> 40
    source_for 0 0 63 -> 63
    has_source 0 0 40 -> yes
    has_source 0 0 41 -> no
    are_newest 0 -> no
    count_plan -> 62
    down 40 -> ok
    count_plan -> 62
    down 63 -> ok
    count_plan -> 0";

#[test]
fn the_most_storages_are_looked_at(rt: HostRuntime) -> Result<(), Fail> {
    let alloc = rt.alloc();
    let mut cluster = Cluster::new(alloc);
    play(alloc, &mut cluster, answer, storages(alloc, 64)?.as_str())?;
    play(alloc, &mut cluster, answer, MOST)
}
