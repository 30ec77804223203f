//! Which storages are up.

use crate::words::{storage, text};
use genbook::Health;
use px_base::StorageId;
use std::alloc::Global;
use std::test::Fail;
use tests_tables::{play, told};

/// Makes a call to what is known of storages.
pub fn answer(alloc: Global, health: &mut Health, name: &str, rest: &str) -> Result<String, Fail> {
    match name {
        "prepare" => health.prepare()?,
        "add" => health.add(),
        "raise" => health.set(storage(rest)?, true),
        "lower" => health.set(storage(rest)?, false),
        "is_up" => return told(alloc, health.is_up(storage(rest)?)),
        _ => return told(alloc, health.count()),
    }
    text(alloc, "ok")
}

/// So many storages, all of them up or none.
pub fn storages(alloc: Global, count: u32, up: bool) -> Result<Health, Fail> {
    let mut health = Health::new(alloc);
    for number in 0..count {
        health.prepare()?;
        health.add();
        health.set(StorageId(number), up);
    }
    Ok(health)
}

// None is added but the one that is ready, and a number that no storage has changes nothing.
const ONE: &str = "\
    count -> 0
    add -> ok
    count -> 0
    raise 0 -> ok
    is_up 0 -> false
    prepare -> ok
    prepare -> ok
    count -> 0
    add -> ok
    add -> ok
    count -> 1
    is_up 0 -> false
    raise 1 -> ok
    is_up 1 -> false
    raise 0 -> ok
    is_up 0 -> true
    count -> 1";

#[test]
fn a_storage_is_made_ready_added_and_raised(rt: HostRuntime) -> Result<(), Fail> {
    play(rt.alloc(), &mut Health::new(rt.alloc()), answer, ONE)
}

const MANY: &str = "\
    count -> 64
    is_up 0 -> true
    is_up 63 -> true
    is_up 64 -> false
    lower 62 -> ok
    is_up 61 -> true
    is_up 62 -> false
    is_up 63 -> true
    raise 62 -> ok
    is_up 62 -> true";

#[test]
fn each_of_many_storages_goes_down_and_up_alone(rt: HostRuntime) -> Result<(), Fail> {
    play(
        rt.alloc(),
        &mut storages(rt.alloc(), 64, true)?,
        answer,
        MANY,
    )
}
