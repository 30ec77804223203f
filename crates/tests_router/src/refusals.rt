//! Each refusal of an operation of the core, and of two causes the first.

use crate::operations::{answer, play_after, play_each};
use crate::steps::THREE;
use px_core::Core;
use std::test::Fail;
use tests_tables::play;

// The core has no storage, and then two virtual storages but no repository.
const NONE: &str = "\
    health 0 up -> refused UnknownStorage
    create v x.git 1 -> refused UnknownVirtual v
    find v x.git -> refused UnknownRepo
    enrol 0 0 1 -> refused UnknownRepo
    begin 0 -> refused UnknownRepo
    booked 0 -> refused UnknownRepo
    holder 0 -> refused UnknownRepo
    admit v a -> storage 0
    admit v b -> storage 1
    admit w c -> storage 2
    admit v a -> refused StorageExists 0
    admit w b -> refused StorageExists 1
    storage_of b -> 1
    health 3 up -> refused UnknownStorage
    create u x.git 9 -> refused UnknownVirtual u
    create v x.git 3 -> refused BadFactor 2
    create w x.git 2 -> refused BadFactor 1
    find v x.git -> refused UnknownRepo
    find u x.git -> refused UnknownRepo
    create v x.git 2 -> created 0 lease 1 assigned a b
    find w x.git -> refused UnknownRepo
    find v y.git -> refused UnknownRepo
    begin 1 -> refused UnknownRepo
    booked 1 -> refused UnknownRepo
    holder 1 -> refused UnknownRepo
    holder 0 -> holder -";

#[test]
fn what_is_not_there_is_refused(rt: HostRuntime) -> Result<(), Fail> {
    play(rt.alloc(), &mut Core::new(rt.alloc()), answer, NONE)
}

// A repository of which no storage has a replica is created again, for the first storage alone.
const CREATIONS: &str = "\
    admit v a -> storage 0
    admit v b -> storage 1
    admit w c -> storage 2
    create v x.git 2 -> created 0 lease 1 assigned a b
    create v x.git 3 -> refused BadFactor 2
    rows 0 -> newest 0 0+a:down=absent 1+b:down=absent
    create v x.git 1 -> created 0 lease 2 assigned a
    rows 0 -> newest 0 0+a:down=absent 1-b:down=absent
    enrol 1 9 9 -> refused UnknownRepo
    enrol 0 9 9 -> refused UnknownStorage
    enrol 0 2 2 -> refused UnknownStorage c
    enrol 0 0 1 -> refused LeaseLost 2 1
    enrol 0 1 2 -> refused LeaseLost 1 2
    enrol 0 1 1 -> refused NotMaking
    booked 0 -> newest 0 a=absent b=absent
    enrol 0 0 2 -> ok
    create v x.git 3 -> refused Exists 0
    create v x.git 1 -> refused Exists 0
    booked 0 -> newest 0 a=at:0 b=absent
    create w x.git 0 -> created 1 lease 1 assigned c
    booked 1 -> newest 0 c=absent
    booked 0 -> newest 0 a=at:0 b=absent";

#[test]
fn a_replica_is_enrolled_under_its_creation_alone(rt: HostRuntime) -> Result<(), Fail> {
    play(rt.alloc(), &mut Core::new(rt.alloc()), answer, CREATIONS)
}

// The turn is taken, also where no storage could be a member. A storage that is down holds the
// newest generation all the same. One that was down when the push began keeps its former lease.
const TURNS: &str = "\
    health 2 down -> ok
    begin 0 -> begun 1 lease 2 gen 0 members a b targets c
    begin 0 -> refused Turn 1
    enrol 0 0 1 -> refused LeaseLost 2 1
    enrol 0 0 2 -> refused NotMaking
    enrol 0 2 2 -> refused LeaseLost 1 2
    health 0 down -> ok
    health 1 down -> ok
    begin 0 -> refused Turn 1
    finish 1 -> refused StillOpen
    holder 0 -> holder 1
    stop 1 -> ok
    finish 1 -> stopped
    begin 0 -> refused ReadOnly 0 3
    holder 0 -> holder -
    health 1 up -> ok
    begin 0 -> begun 2 lease 3 gen 0 members b targets a c
    cast 2 b prepared 1 -> committed 1111111111111111111111111111111111111111 1/1 in 1
    begin 0 -> refused Turn 2
    withdraw 2 b -> ok
    finish 2 -> unsure 1
    begin 0 -> refused ReadOnly 1 0
    booked 0 -> newest 1 a=at:0 b=doubt:3:0:1 c=at:0
    enrol 0 2 1 -> ok
    booked 0 -> newest 1 a=at:0 b=doubt:3:0:1 c=at:0";

#[test]
fn a_push_begins_where_the_turn_is_free_and_a_member_is_up(rt: HostRuntime) -> Result<(), Fail> {
    play_after(rt.alloc(), THREE, TURNS)
}

// The most storages of a virtual storage.
const FULL: &str = "\
    admit v v0 -> refused StorageExists 0
    admit v v64 -> refused TooManyStorages
    storage_of v64 -> -
    admit w v0 -> refused StorageExists 0
    admit w w0 -> storage 64
    storage_of w0 -> 64
    health 65 up -> refused UnknownStorage
    create v x.git 65 -> refused BadFactor 64
    create v x.git 1 -> created 0 lease 1 assigned v0
    enrol 0 64 1 -> refused UnknownStorage w0
    enrol 0 65 1 -> refused UnknownStorage";

#[test]
fn a_virtual_storage_has_64_storages_at_most(rt: HostRuntime) -> Result<(), Fail> {
    let mut core = Core::new(rt.alloc());
    play_each(rt.alloc(), &mut core, "admit v v# -> storage #", 0, 64)?;
    play(rt.alloc(), &mut core, answer, FULL)
}
