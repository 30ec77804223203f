//! Lines on reads and repairs that are refused. Behind each the world is read, which did not
//! change.

use crate::pushes::{BOTH_MADE, BOTH_PREPARED, DECIDED, DOUBT, TWO};
use crate::scripts::{play, with_each};
use std::test::Fail;

const NO_STORAGE: &str = "\
    read 0 -> refused UnknownRepo
    read 4294967295 -> refused UnknownRepo
    accept 0 a -> refused UnknownStorage a
    settle 0 a -> refused UnknownStorage a
    fence a 0 1 -> refused UnknownStorage a
    accepted 0 a 1 -> refused UnknownStorage a
    settled 0 a 1 -> refused UnknownStorage a";

const NO_REPOSITORY: &str = "    booked 0 -> refused UnknownRepo";

// Nothing else of a line is looked at, and nothing of it is kept.
const UNKNOWN_STORAGE: &str = "\
    accept 9 c -> refused UnknownStorage c
    accept 0 c -> refused UnknownStorage c
    settle 9 c -> refused UnknownStorage c
    settle 0 c -> refused UnknownStorage c
    fence c 9 1 -> refused UnknownStorage c
    fence c 0 1 -> refused UnknownStorage c
    accepted 9 c 1 -> refused UnknownStorage c
    accepted 0 c 1 -> refused UnknownStorage c
    settled 9 c 1 -> refused UnknownStorage c
    settled 0 c 1 -> refused UnknownStorage c";

const NONE_MADE: &str = "\
    refs a 0 -> refused NoRepo
    booked 0 -> newest 0 a=absent b=absent";

// The storage that comes later keeps no lease yet.
const C_COMES: &str = "\
    storage default c -> storage 2
    accept 0 c -> refused NotBooked
    settle 0 c -> refused NotInDoubt
    fence c 0 0 -> refused NotOut
    accepted 0 c 1 -> refused LeaseLost 0 1
    accepted 0 c 0 -> refused NotBooked
    settled 0 c 1 -> refused LeaseLost 0 1
    settled 0 c 0 -> refused NotInDoubt
    booked 0 -> newest 0 a=absent b=absent c=absent";

#[test]
fn a_storage_that_is_repaired_is_looked_for_first(rt: HostRuntime) -> Result<(), Fail> {
    let alloc = rt.alloc();
    let none = with_each(alloc, NO_STORAGE, NO_REPOSITORY)?;
    let unknown = with_each(alloc, UNKNOWN_STORAGE, NONE_MADE)?;
    play(alloc, &[none.as_str(), TWO, unknown.as_str(), C_COMES])
}

// There is a storage of another virtual storage too. The creation was drawn under the lease 1.
const ABSENT: &str = "\
    read 1 -> refused UnknownRepo
    read 0 -> refused NoCurrentReplica 0 0
    accept 1 a -> refused UnknownRepo
    accept 1 z -> refused UnknownRepo
    accept 0 z -> refused UnknownStorage z
    accept 0 a -> refused NotBooked
    settle 1 a -> refused UnknownRepo
    settle 1 z -> refused UnknownRepo
    settle 0 z -> refused UnknownStorage z
    settle 0 a -> refused NotInDoubt
    fence a 1 1 -> refused NotOut
    fence z 0 1 -> refused NotOut
    fence a 0 0 -> refused NotOut
    fence a 0 1 -> refused NotOut
    fence a 0 2 -> refused NotOut
    fence a 0 18446744073709551614 -> refused NotOut
    accepted 1 a 1 -> refused UnknownRepo
    accepted 1 z 1 -> refused UnknownRepo
    accepted 0 z 0 -> refused UnknownStorage z
    accepted 0 a 2 -> refused LeaseLost 1 2
    accepted 0 a 18446744073709551614 -> refused LeaseLost 1 18446744073709551614
    accepted 0 a 1 -> refused NotBooked
    settled 1 a 1 -> refused UnknownRepo
    settled 1 z 1 -> refused UnknownRepo
    settled 0 z 0 -> refused UnknownStorage z
    settled 0 a 0 -> refused LeaseLost 1 0
    settled 0 a 1 -> refused NotInDoubt";

const MADE: &str = "\
    settle 0 a -> refused NotInDoubt
    fence a 0 1 -> refused NotOut
    fence a 0 2 -> refused NotOut
    accepted 0 a 0 -> refused LeaseLost 1 0
    accepted 0 a 1 -> refused NotAcked
    settled 0 a 2 -> refused LeaseLost 1 2
    settled 0 a 1 -> refused NotInDoubt";

const BOTH_AT_FIRST: &str = "\
    refs a 0 -> refs
    booked 0 -> newest 0 a=at:0 b=at:0";

#[test]
fn a_repair_is_refused_by_what_is_booked(rt: HostRuntime) -> Result<(), Fail> {
    let alloc = rt.alloc();
    let absent = with_each(alloc, ABSENT, NONE_MADE)?;
    let made = with_each(alloc, MADE, BOTH_AT_FIRST)?;
    let tables = [
        TWO,
        "storage other z -> storage 2",
        absent.as_str(),
        BOTH_MADE,
        made.as_str(),
        "accept 0 a -> lease 2",
    ];
    play(alloc, &tables)
}

// The second storage has no replica, and is a target.
const ONE_MADE: &str = "\
    make a 0 1 -> done
    enrol 0 a 1 -> ok
    begin 0 -> begun 1 lease 2 gen 0 members a targets b";

const IN_A_PUSH: &str = "\
    accept 1 a -> refused UnknownRepo
    accept 0 z -> refused UnknownStorage z
    accept 0 a -> refused Turn 1
    accept 0 b -> refused Turn 1
    settle 1 a -> refused UnknownRepo
    settle 0 z -> refused UnknownStorage z
    settle 0 a -> refused Turn 1
    settle 0 b -> refused Turn 1
    fence a 0 2 -> refused NotOut
    fence b 0 1 -> refused NotOut
    accepted 1 a 2 -> refused UnknownRepo
    accepted 0 z 2 -> refused UnknownStorage z
    accepted 0 a 7 -> refused Turn 1
    accepted 0 a 2 -> refused Turn 1
    accepted 0 b 1 -> refused Turn 1
    settled 0 z 2 -> refused UnknownStorage z
    settled 0 a 1 -> refused LeaseLost 2 1
    settled 0 a 2 -> refused NotInDoubt
    settled 0 b 2 -> refused LeaseLost 1 2
    settled 0 b 1 -> refused NotInDoubt";

const PUSH_OF_A: &str = "\
    refs a 0 -> refs
    booked 0 -> newest 0 a=at:0 b=absent
    holder 0 -> holder 1";

#[test]
fn a_repair_is_refused_beside_a_push(rt: HostRuntime) -> Result<(), Fail> {
    let alloc = rt.alloc();
    let refused = with_each(alloc, IN_A_PUSH, PUSH_OF_A)?;
    let tables = [
        TWO,
        "storage other z -> storage 2",
        ONE_MADE,
        refused.as_str(),
        "read 0 -> route a gen 0",
    ];
    play(alloc, &tables)
}

const IN_FLIGHT: &str = "\
    read 1 -> refused UnknownRepo
    read 0 -> refused InFlight 1
    settle 0 b -> refused Turn 1
    accept 0 b -> refused Turn 1
    accepted 0 b 2 -> refused Turn 1
    settled 0 b 2 -> refused LeaseLost 2 2";

const BOTH_IN_DOUBT: &str = "\
    refs b 0 -> refs
    booked 0 -> newest 1 a=doubt:2:0:1 b=doubt:2:0:1";

// The lease of the doubt is the kept one, and nothing is settled under it.
const IN_DOUBT: &str = "\
    settle 0 a -> refused NotInDoubt
    fence b 0 2 -> refused NotOut
    fence b 0 3 -> refused NotOut
    accepted 0 b 1 -> refused LeaseLost 2 1
    accepted 0 b 2 -> refused NotAcked
    settled 0 a 2 -> refused NotInDoubt
    settled 0 b 1 -> refused LeaseLost 2 1
    settled 0 b 3 -> refused LeaseLost 2 3
    settled 0 b 2 -> refused LeaseLost 2 2";

const FIRST_CONFIRMED: &str = "\
    refs b 0 -> refs
    booked 0 -> newest 1 a=at:1 b=doubt:2:0:1";

// The fence is out, and its node has not answered.
const FENCE_OUT: &str = "\
    fence c 0 3 -> refused UnknownStorage c
    fence a 0 3 -> refused NotOut
    fence z 0 3 -> refused NotOut
    fence b 1 3 -> refused NotOut
    fence b 0 0 -> refused NotOut
    fence b 0 2 -> refused NotOut
    fence b 0 4 -> refused NotOut
    accepted 1 b 3 -> refused UnknownRepo
    accepted 0 a 3 -> refused LeaseLost 2 3
    accepted 0 b 2 -> refused LeaseLost 3 2
    accepted 0 b 3 -> refused NotAcked
    settled 1 b 3 -> refused UnknownRepo
    settled 0 a 3 -> refused LeaseLost 2 3
    settled 0 b 2 -> refused LeaseLost 3 2
    settled 0 b 4 -> refused LeaseLost 3 4
    settled 0 b 3 -> refused NotAcked";

// It has. What it answered is for this lease alone.
const ANSWERED: &str = "\
    commit 1 b -> refused Fenced 3
    fence a 0 3 -> refused NotOut
    fence b 0 4 -> refused NotOut
    accepted 0 a 3 -> refused LeaseLost 2 3
    accepted 0 a 2 -> refused NotAcked
    accepted 0 b 2 -> refused LeaseLost 3 2
    settled 1 b 3 -> refused UnknownRepo
    settled 0 z 3 -> refused UnknownStorage z
    settled 0 a 2 -> refused NotInDoubt
    settled 0 b 2 -> refused LeaseLost 3 2
    settled 0 b 4 -> refused LeaseLost 3 4";

#[test]
fn only_a_fence_that_was_answered_is_heard(rt: HostRuntime) -> Result<(), Fail> {
    let alloc = rt.alloc();
    let flight = with_each(alloc, IN_FLIGHT, BOTH_IN_DOUBT)?;
    let doubt = with_each(alloc, IN_DOUBT, FIRST_CONFIRMED)?;
    let out = with_each(alloc, FENCE_OUT, FIRST_CONFIRMED)?;
    let answered = with_each(alloc, ANSWERED, FIRST_CONFIRMED)?;
    let tables = [
        TWO,
        BOTH_MADE,
        "storage other z -> storage 2",
        BOTH_PREPARED,
        DECIDED,
        flight.as_str(),
        DOUBT,
        doubt.as_str(),
        "settle 0 b -> lease 3",
        out.as_str(),
        "fence b 0 3 -> last -",
        answered.as_str(),
        "settled 0 b 3 -> booked at:0",
    ];
    play(alloc, &tables)
}

// The storage was to be accepted when its delete was taken. Its node has removed the replica when
// the fence comes, and refuses that.
const DELETE_TAKEN: &str = "\
    accept 0 b -> lease 2
    factor 0 1 -> assigned a
    reconcile -> jobs 1:delete:0:b
    take b 1 -> job 1 delete 0 b gen 0 lease 3
    remove 1 3 -> done";

const DELETED: &str = "\
    fence b 0 2 -> refused NoRepo
    fence b 0 3 -> refused NotOut
    accept 0 b -> refused NotBooked
    settle 0 b -> refused NotInDoubt
    accepted 0 b 2 -> refused LeaseLost 3 2
    accepted 0 b 3 -> refused NotBooked
    settled 0 b 2 -> refused LeaseLost 3 2
    settled 0 b 3 -> refused NotInDoubt";

const SECOND_ABSENT: &str = "\
    refs b 0 -> refused NoRepo
    booked 0 -> newest 0 a=at:0 b=absent";

#[test]
fn a_storage_without_a_replica_is_not_repaired(rt: HostRuntime) -> Result<(), Fail> {
    let alloc = rt.alloc();
    let deleted = with_each(alloc, DELETED, SECOND_ABSENT)?;
    play(alloc, &[TWO, BOTH_MADE, DELETE_TAKEN, deleted.as_str()])
}

// Both repositories have a fence under the lease 2, each at another storage.
const TWO_REPOSITORIES: &str = "\
    create default y.git 0 -> created 1 lease 1 assigned a b
    make a 1 1 -> done
    make b 1 1 -> done
    enrol 1 a 1 -> ok
    enrol 1 b 1 -> ok
    accept 0 b -> lease 2
    fence b 1 2 -> refused NotOut
    accepted 1 b 2 -> refused LeaseLost 1 2
    accept 1 a -> lease 2
    fence b 1 2 -> refused NotOut
    fence a 0 2 -> refused NotOut
    fence b 0 2 -> last -
    accepted 1 a 2 -> refused NotAcked
    accepted 1 b 2 -> refused LeaseLost 1 2
    fence a 1 2 -> last -
    accepted 1 a 2 -> gen 1
    booked 0 -> newest 0 a=at:0 b=at:0
    booked 1 -> newest 1 a=at:1 b=at:0
    accepted 0 b 2 -> gen 1
    booked 0 -> newest 1 a=at:0 b=at:1
    booked 1 -> newest 1 a=at:1 b=at:0
    read 0 -> route b gen 1
    read 1 -> route a gen 1";

#[test]
fn fences_of_two_repositories_are_apart(rt: HostRuntime) -> Result<(), Fail> {
    play(rt.alloc(), &[TWO, BOTH_MADE, TWO_REPOSITORIES])
}
