//! Storages and repositories on the book.

use crate::book_calls::answer;
use genbook::Book;
use std::alloc::Global;
use std::test::Fail;
use tests_tables::play;

// Nothing is found, and each call names what it lacks.
const EMPTY: &str = "\
    find v a.git -> UnknownRepo
    known a -> -
    name 0 -> -
    at 0 0 -> -
    record 0 -> -
    create v a.git 0 -> UnknownVirtual v
    enrol 0 0 1 -> UnknownRepo
    accept 0 0 1 -> UnknownRepo
    settle 0 0 1 1 -> UnknownRepo
    draw_to_accept 0 0 -> UnknownRepo
    draw_to_settle 0 0 -> UnknownRepo
    draw 0 0 -> UnknownRepo";

#[test]
fn the_empty_book_has_nothing(rt: HostRuntime) -> Result<(), Fail> {
    play(rt.alloc(), &mut Book::new(rt.alloc()), answer, EMPTY)
}

// A plan leaves all as it was. A repository has a replica on each storage of its virtual storage,
// also on one that comes later, which is not assigned.
const NAMES: &str = "\
    plan_admit v a -> storage 0
    known a -> -
    admit v a -> storage 0
    admit v a -> StorageExists 0
    admit w a -> StorageExists 0
    admit w b -> storage 1
    admit v c -> storage 2
    known a -> 0 of v
    known b -> 1 of w
    known c -> 2 of v
    known v -> -
    name 1 -> b
    name 3 -> -
    create u a.git 0 -> UnknownVirtual u
    create v a.git 3 -> BadFactor 2
    plan_create v a.git 0 -> repo 0 lease 1 on 0,2
    find v a.git -> UnknownRepo
    create v a.git 0 -> repo 0 lease 1 on 0,2
    create w a.git 1 -> repo 1 lease 1 on 1
    find v a.git -> repo 0
    find w a.git -> repo 1
    find v b.git -> UnknownRepo
    record 0 -> newest 0 last 1 made 1 by - 0+1=absent 2+1=absent
    record 1 -> newest 0 last 1 made 1 by - 1+1=absent
    record 2 -> -
    place 0 -> v a.git
    place 1 -> w a.git
    place 2 -> -
    at 0 1 -> 2
    at 0 2 -> -
    admit v d -> storage 3
    record 0 -> newest 0 last 1 made 1 by - 0+1=absent 2+1=absent 3-0=absent
    record 1 -> newest 0 last 1 made 1 by - 1+1=absent
    at 0 2 -> 3";

#[test]
fn storages_and_repositories_are_found_by_their_names(rt: HostRuntime) -> Result<(), Fail> {
    play(rt.alloc(), &mut Book::new(rt.alloc()), answer, NAMES)
}

// Nothing is known of a repository whose creation no node did, or whose replicas are forgotten.
const AGAIN: &str = "\
    admit v a -> storage 0
    admit v b -> storage 1
    create v a.git 1 -> repo 0 lease 1 on 0
    create v a.git 0 -> repo 0 lease 2 on 0,1
    record 0 -> newest 0 last 2 made 2 by - 0+2=absent 1+2=absent
    enrol 0 0 1 -> LeaseLost 2 1
    enrol 0 0 2 -> ok
    enrol 0 2 2 -> UnknownStorage
    create v a.git 0 -> Exists 0
    forget 0 0 -> ok
    create v a.git 1 -> repo 0 lease 3 on 0
    record 0 -> newest 0 last 3 made 3 by - 0+3=absent 1-2=absent";

#[test]
fn a_repository_of_which_nothing_is_known_is_created_again(rt: HostRuntime) -> Result<(), Fail> {
    play(rt.alloc(), &mut Book::new(rt.alloc()), answer, AGAIN)
}

// The first of two repositories changes, and the other one stays.
const CHANGES: &str = "\
    admit v a -> storage 0
    admit v b -> storage 1
    admit w c -> storage 2
    create v a.git 0 -> repo 0 lease 1 on 0,1
    create v b.git 0 -> repo 1 lease 1 on 0,1
    enrol 0 2 1 -> UnknownStorage c
    accept 0 2 1 -> UnknownStorage c
    settle 0 3 1 1 -> UnknownStorage
    draw_to_accept 0 2 -> UnknownStorage c
    draw_to_settle 0 2 -> UnknownStorage c
    draw_to_accept 0 0 -> NotBooked
    enrol 0 0 1 -> ok
    enrol 0 1 1 -> ok
    begin 0 0 0,1 -> lease 2
    enrol 0 0 2 -> NotMaking
    decide 0 0 0,1 2 -> gen 1
    record 0 -> newest 1 last 2 made 1 by 0 0+2=doubt:2:0:1 1+2=doubt:2:0:1
    confirm 0 0 2 -> ok
    settle 0 1 2 2 -> LeaseLost 2 2
    draw_to_settle 0 0 -> NotInDoubt
    draw_to_settle 0 1 -> lease 3
    settle 0 1 3 2 -> ok
    record 0 -> newest 1 last 3 made 1 by 0 0+2=at:1 1+3=at:1
    draw_to_accept 0 1 -> lease 4
    accept 0 1 3 -> LeaseLost 4 3
    accept 0 1 4 -> gen 2
    draw 0 0 -> lease 5
    late 0 0 5 -> ok
    record 0 -> newest 2 last 5 made 1 by 0 0+5=doubt:5:1:2 1+4=at:2
    put 0 0 -> ok
    record 0 -> newest 2 last 5 made 1 by 0 0+5=at:9 1+4=at:2
    find v a.git -> repo 0
    record 1 -> newest 0 last 1 made 1 by - 0+1=absent 1+1=absent";

#[test]
fn each_call_changes_one_repository(rt: HostRuntime) -> Result<(), Fail> {
    play(rt.alloc(), &mut Book::new(rt.alloc()), answer, CHANGES)
}

// Storages of this virtual storage, from `v0` on.
fn admit_many(alloc: Global, book: &mut Book, virt: &str, count: u32) -> Result<(), Fail> {
    for number in 0..count {
        let call = format!(in alloc; "{virt} {virt}{number}")?;
        answer(alloc, book, "admit", call.as_str())?;
    }
    Ok(())
}

// Repositories of `v`, from `0.git` on.
fn create_many(alloc: Global, book: &mut Book, count: u32) -> Result<(), Fail> {
    for number in 0..count {
        let call = format!(in alloc; "v {number}.git 2")?;
        answer(alloc, book, "create", call.as_str())?;
    }
    Ok(())
}

// The most storages of a virtual storage, and then three hundred repositories.
const MANY: &str = "\
    admit v v64 -> TooManyStorages
    admit w w0 -> storage 64
    known v63 -> 63 of v
    known v0 -> 0 of v
    find v 0.git -> repo 0
    find v 299.git -> repo 299
    find v 300.git -> UnknownRepo
    at 299 63 -> 63
    at 299 64 -> -
    at 300 0 -> -
    create v 300.git 65 -> BadFactor 64
    create v 300.git 1 -> repo 300 lease 1 on 0
    create w 0.git 0 -> repo 301 lease 1 on 64
    enrol 299 1 1 -> ok
    create v 299.git 1 -> Exists 299
    create v 298.git 1 -> repo 298 lease 2 on 0";

#[test]
fn many_storages_and_repositories_are_found(rt: HostRuntime) -> Result<(), Fail> {
    let alloc = rt.alloc();
    let mut book = Book::new(alloc);
    admit_many(alloc, &mut book, "v", 64)?;
    create_many(alloc, &mut book, 300)?;
    play(alloc, &mut book, answer, MANY)
}
