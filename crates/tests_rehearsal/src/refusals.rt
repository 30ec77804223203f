//! Lines that the core refuses, or that tell a node what was not issued, or tell of it what it did not
//! answer. Behind each the world is read, which did not change.

use crate::pushes::TWO;
use crate::scripts::{play, with_each};
use std::test::Fail;

const NO_STORAGE: &str = "\
    health a up -> refused UnknownStorage a
    create default x.git 1 -> refused UnknownVirtual default
    begin 0 -> refused UnknownRepo
    booked 4294967295 -> refused UnknownRepo
    holder 4294967295 -> refused UnknownRepo";

const NO_REPOSITORY: &str = "\
    booked 0 -> refused UnknownRepo
    holder 0 -> refused UnknownRepo";

// A name is that of one storage, whatever its virtual storage.
const TWO_NAMES: &str = "\
    storage default a -> storage 0
    storage other z -> storage 1";

const OF_TWO_NAMES: &str = "\
    storage default a -> refused StorageExists 0
    storage other a -> refused StorageExists 0
    storage third z -> refused StorageExists 1
    create third x.git 1 -> refused UnknownVirtual third
    create default x.git 4294967295 -> refused BadFactor 1
    begin 0 -> refused UnknownRepo";

const TWO_ARE_THERE: &str = "\
    create default x.git 2 -> refused BadFactor 1
    create other x.git 2 -> refused BadFactor 1
    create third x.git 0 -> refused UnknownVirtual third
    booked 0 -> refused UnknownRepo
    holder 0 -> refused UnknownRepo";

const CREATED: &str = "\
    storage default b -> storage 2
    create default x.git 1 -> created 0 lease 1 assigned a
    create other x.git 0 -> created 1 lease 1 assigned z
    create default y.git 2 -> created 2 lease 1 assigned a b";

#[test]
fn storages_and_repositories_are_refused_by_what_is_there(rt: HostRuntime) -> Result<(), Fail> {
    let alloc = rt.alloc();
    let first = with_each(alloc, NO_STORAGE, NO_REPOSITORY)?;
    let second = with_each(alloc, OF_TWO_NAMES, TWO_ARE_THERE)?;
    play(
        alloc,
        &[first.as_str(), TWO_NAMES, second.as_str(), CREATED],
    )
}

// Nothing else of a line is looked at.
const UNKNOWN_STORAGE: &str = "\
    health c up -> refused UnknownStorage c
    health c down -> refused UnknownStorage c
    make c 9 1 -> refused UnknownStorage c
    make c 0 1 -> refused UnknownStorage c
    enrol 9 c 1 -> refused UnknownStorage c
    enrol 0 c 1 -> refused UnknownStorage c
    prepare 9 c -> refused UnknownStorage c
    commit 9 c -> refused UnknownStorage c
    abort 9 c -> refused UnknownStorage c
    refs c 9 -> refused UnknownStorage c";

const NOTHING_OF_C: &str = "\
    refs c 0 -> refused UnknownStorage c
    booked 0 -> newest 0 a=absent b=absent
    holder 0 -> holder -";

const C_COMES: &str = "\
    storage default c -> storage 2
    booked 0 -> newest 0 a=absent b=absent c=absent
    refs c 0 -> refused NoRepo
    refs c 9 -> refused NotOut";

#[test]
fn a_name_of_no_storage_is_told_before_anything_else(rt: HostRuntime) -> Result<(), Fail> {
    let alloc = rt.alloc();
    let refused = with_each(alloc, UNKNOWN_STORAGE, NOTHING_OF_C)?;
    play(alloc, &[TWO, refused.as_str(), C_COMES])
}

// There is a storage of another virtual storage too.
const NOT_MADE: &str = "\
    make a 1 1 -> refused NotOut
    make a 0 0 -> refused NotOut
    make a 0 2 -> refused NotOut
    make a 0 18446744073709551614 -> refused NotOut
    make z 0 1 -> refused NotOut
    refs a 1 -> refused NotOut
    refs z 0 -> refused NotOut
    prepare 1 a {zero}:{empty}:refs/tags/empty with blob: -> refused NotOut
    commit 1 a -> refused NotOut
    abort 1 a -> refused NotOut
    enrol 1 a 1 -> refused UnknownRepo
    enrol 1 z 1 -> refused UnknownRepo
    enrol 0 z 1 -> refused UnknownStorage z
    enrol 0 a 2 -> refused LeaseLost 1 2
    enrol 0 a 18446744073709551614 -> refused LeaseLost 1 18446744073709551614
    enrol 0 a 1 -> refused NotAcked
    begin 0 -> refused ReadOnly 0 0
    finish 1 -> refused UnknownTx 1";

const NOTHING_MADE: &str = "\
    refs a 0 -> refused NoRepo
    booked 0 -> newest 0 a=absent b=absent
    holder 0 -> holder -";

// The other storage is a target of the push.
const ONE_MADE: &str = "\
    make a 0 1 -> done
    enrol 0 b 1 -> refused NotAcked
    booked 0 -> newest 0 a=absent b=absent
    enrol 0 a 1 -> ok
    begin 0 -> begun 1 lease 2 gen 0 members a targets b";

const NOT_OUT: &str = "\
    prepare 1 b {zero}:{empty}:refs/tags/empty with blob: -> refused NotOut
    commit 1 b -> refused NotOut
    abort 1 b -> refused NotOut
    prepare 1 z -> refused NotOut
    commit 1 z -> refused NotOut
    abort 1 z -> refused NotOut
    prepare 0 a -> refused NotOut
    prepare 2 a -> refused NotOut
    abort 2 a -> refused NotOut
    commit 18446744073709551615 a -> refused NotOut
    commit 1 a -> refused NotOut
    make a 0 2 -> refused NotOut
    begin 0 -> refused Turn 1
    finish 1 -> refused StillOpen
    finish 2 -> refused UnknownTx 2
    close 1 -> refused IsPush
    cast 1 b prepared {vote} -> refused NotAVoter b
    cast 1 b committed {vote} -> refused NotAVoter b
    cast 1 a committed {vote} -> refused WrongPhase prepared
    cast 2 a committed {vote} -> refused UnknownTx 2
    withdraw 1 b -> refused NotAVoter b
    collect 1 b 1 -> refused NotAVoter b
    collect 1 a 3 -> refused NoSub 3
    outcome 1 3 -> refused NoSub 3";

const NOTHING_DONE: &str = "\
    refs a 0 -> refs
    refs b 0 -> refused NoRepo
    booked 0 -> newest 0 a=at:0 b=absent
    holder 0 -> holder 1
    collect 1 a 1 -> open
    outcome 1 1 -> open";

// A target can be made, and is no member for that.
const TARGET_MADE: &str = "\
    make b 0 1 -> done
    enrol 0 b 1 -> ok
    booked 0 -> newest 0 a=at:0 b=at:0
    prepare 1 b {zero}:{empty}:refs/tags/empty with blob: -> refused NotOut
    refs b 0 -> refs";

#[test]
fn only_what_was_issued_comes_to_a_node(rt: HostRuntime) -> Result<(), Fail> {
    let alloc = rt.alloc();
    let first = with_each(alloc, NOT_MADE, NOTHING_MADE)?;
    let second = with_each(alloc, NOT_OUT, NOTHING_DONE)?;
    let tables = [
        TWO,
        "storage other z -> storage 2",
        first.as_str(),
        ONE_MADE,
        second.as_str(),
        TARGET_MADE,
    ];
    play(alloc, &tables)
}
