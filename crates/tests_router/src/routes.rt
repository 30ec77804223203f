//! Who takes part in a push.

use crate::health;
use crate::repositories::{self, made};
use crate::words::{number, numbers, refused, storage, text};
use genbook::{Health, Repository};
use px_base::StorageId;
use router::{PushFault, PushRoute, primary, route_push};
use std::alloc::Global;
use std::test::Fail;
use tests_tables::play;

// A repository, and which storages are up.
#[derive(Drop)]
struct Routable {
    repository: Repository,
    health: Health,
}

// The members and the targets.
fn routed(alloc: Global, route: &PushRoute) -> Result<String, Fail> {
    let members = numbers(alloc, &route.members)?;
    let targets = numbers(alloc, &route.targets)?;
    Ok(format!(in alloc; "{members} to {targets}")?)
}

fn route(alloc: Global, known: &Routable) -> Result<String, Fail> {
    if u32::try_from(known.repository.replicas().len()).is_err() {
        return Err(Fail::new("too many replicas"));
    }
    match route_push(alloc, &known.repository, &known.health) {
        Ok(route) => routed(alloc, &route),
        Err(PushFault::Refused(why)) => refused(alloc, &why),
        Err(PushFault::Memory) => text(alloc, "memory"),
    }
}

fn answer(alloc: Global, known: &mut Routable, name: &str, rest: &str) -> Result<String, Fail> {
    match name {
        "primary" => number(alloc, primary(&known.repository, &known.health)),
        "route" => route(alloc, known),
        "raise" | "lower" => health::answer(alloc, &mut known.health, name, rest),
        _ => repositories::answer(alloc, &mut known.repository, name, rest),
    }
}

// A repository on so many storages, all of which are up or none.
fn known(alloc: Global, count: u32, up: bool) -> Result<Routable, Fail> {
    let repository = made(alloc, count)?;
    let health = health::storages(alloc, count, up)?;
    Ok(Routable { repository, health })
}

// A push is done where a storage is up, assigned and at the newest generation. The primary of the
// last push is that of the next one, where it may be.
const THREE: &str = "\
    primary -> -
    route -> ReadOnly 0 3
    raise 1 -> ok
    primary -> 1
    route -> 1 to 0,2
    raise 0 -> ok
    raise 2 -> ok
    primary -> 0
    route -> 0,1,2 to -
    begin 1,0,2 -> lease 2
    primary -> 1
    route -> 1,0,2 to -
    decide 2 0,2 -> gen 1
    primary -> -
    route -> ReadOnly 1 0
    confirm 2 2 -> ok
    primary -> 2
    route -> 2 to 0,1
    confirm 0 2 -> ok
    route -> 0,2 to 1
    lower 0 -> ok
    route -> 2 to 0,1
    raise 0 -> ok
    create 1,2 -> lease 3
    route -> 2 to 1
    lower 2 -> ok
    route -> ReadOnly 1 2
    record -> newest 1 last 3 made 3 by 1 0-2=at:1 1+3=at:0 2+3=at:1";

#[test]
fn a_push_is_routed_to_who_is_up_assigned_and_newest(rt: HostRuntime) -> Result<(), Fail> {
    play(rt.alloc(), &mut known(rt.alloc(), 3, false)?, answer, THREE)
}

const ONE: &str = "\
    route -> 0 to -
    lower 0 -> ok
    route -> ReadOnly 0 1";

const MANY: &str = "\
    begin 63 -> lease 2
    route -> 63,0,1,2,3,4,5,6,7,8,9,10,11,12,13,14,15,16,17,18,19,20,21,22,23,24,25,26,27,28,29,30,\
        31,32,33,34,35,36,37,38,39,40,41,42,43,44,45,46,47,48,49,50,51,52,53,54,55,56,57,58,59,60,\
        61,62 to -
    decide 2 5..64 -> gen 1
    route -> ReadOnly 1 0
    confirm 40 2 -> ok
    confirm 63 2 -> ok
    lower 63 -> ok
    route -> 40 to 0,1,2,3,4,5,6,7,8,9,10,11,12,13,14,15,16,17,18,19,20,21,22,23,24,25,26,27,28,29,\
        30,31,32,33,34,35,36,37,38,39,41,42,43,44,45,46,47,48,49,50,51,52,53,54,55,56,57,58,59,60,\
        61,62,63";

#[test]
fn one_storage_and_the_most_are_routed_to(rt: HostRuntime) -> Result<(), Fail> {
    let alloc = rt.alloc();
    play(alloc, &mut known(alloc, 1, true)?, answer, ONE)?;
    play(alloc, &mut known(alloc, 64, true)?, answer, MANY)
}
