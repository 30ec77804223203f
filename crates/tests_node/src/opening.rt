//! Nodes that are opened over the rows that a keeper has.

use crate::calls::play;
use crate::keeper::rows;
use crate::shelf::CALLS;
use px_keeper::{Batch, Keeper, MemKeeper};
use px_node::{OpenFault, Shelf};
use std::alloc::{AllocError, Global};
use std::test::Fail;
use tests_tables::compare;

// Makes the calls of a table to a node that has nothing, and those of another one to the node that is
// opened over what it left.
fn play_twice(alloc: Global, before: &str, after: &str) -> Result<(), Fail> {
    let mut node = Shelf::new(alloc, MemKeeper::new(alloc, Vec::new(alloc)));
    play(alloc, &mut node, before)?;
    play(alloc, &mut opened_again(alloc, node)?, after)
}

/// The node that is opened over the rows that a node leaves.
pub fn opened_again(alloc: Global, node: Shelf<MemKeeper>) -> Result<Shelf<MemKeeper>, Fail> {
    match Shelf::open(alloc, node.into_keeper()) {
        Ok(node) => Ok(node),
        Err(_) => Err(Fail::new("the node was not opened")),
    }
}

// What is left of CALLS.
const LEFT: &str = "\
    list -> y.git
    refs y.git ->
    fence y.git 8 -> last -
    create x.git 5 -> fenced 6";

#[test]
fn what_was_done_is_there_again(rt: HostRuntime) -> Result<(), Fail> {
    play_twice(rt.alloc(), CALLS, LEFT)
}

// A push that was done, and one that is ready.
const PUSHES: &str = "\
    create x.git 1 -> ok
    prepare x.git 2 none blob refs/tags/empty +blob -> vote
    commit x.git 2 vote -> vote
    prepare x.git 3 blob tree refs/tags/empty +tree -> 9062";

const KEPT: &str = "\
    commit x.git 2 vote -> fenced 3
    commit x.git 3 vote -> not prepared
    refs x.git -> refs/tags/empty=blob
    snapshot x.git -> refs/tags/empty=blob and +blob
    object x.git tree -> none
    fence x.git 4 -> last 2";

#[test]
fn a_push_that_was_ready_is_lost_and_one_that_was_done_stays(rt: HostRuntime) -> Result<(), Fail> {
    play_twice(rt.alloc(), PUSHES, KEPT)
}

// The rows of a node, written by hand: x.git has the fence 3 and the last lease 2 and is held, its
// reference refs/tags/empty names the empty blob, and that is there.
const GOOD: &str = "6 782e676974=000000000000000301000000000000000201 \
    7 782e67697400726566732f746167732f656d707479=e69de29bb2d1d6434b8b29ae775ad8c2e48c5391 \
    8 782e67697400e69de29bb2d1d6434b8b29ae775ad8c2e48c5391=03";

// Adds that the rows are put that a text has, each as `TABLE KEY=VALUE`, key and value in
// hexadecimal.
fn put_rows(alloc: Global, batch: &mut Batch, text: &str) -> Result<(), Fail> {
    let mut table = 0u8;
    for word in text.split_whitespace() {
        match word.split_once("=") {
            Some((key, value)) => {
                let key = hex::decode(alloc, key)?;
                let value = hex::decode(alloc, value)?;
                batch.put(alloc, table, &key, &value)?;
            }
            None => table = word.parse::<u8>()?,
        }
    }
    Ok(())
}

// A keeper of the good rows, over which those of a text are put, all of them by its first call.
fn keeper_of(alloc: Global, text: &str, failing: Vec<u64>) -> Result<MemKeeper, Fail> {
    let mut batch = Batch::new(alloc);
    put_rows(alloc, &mut batch, GOOD)?;
    put_rows(alloc, &mut batch, text)?;
    let mut keeper = MemKeeper::new(alloc, failing);
    keeper.commit(batch)?;
    Ok(keeper)
}

// A row by its table and key.
fn named(alloc: Global, table: u8, key: &[u8]) -> Result<String, AllocError> {
    let key = hex::encode(alloc, key)?;
    format!(in alloc; "{table} {key}")
}

// What opening comes to, the bad row as `TABLE KEY`, and the keeper that is given back.
fn opened(alloc: Global, keeper: MemKeeper) -> (Result<String, AllocError>, MemKeeper) {
    match Shelf::open(alloc, keeper) {
        Ok(node) => (String::from_str(alloc, "ok"), node.into_keeper()),
        Err(OpenFault::BadRow { keeper, table, key }) => {
            (named(alloc, table, key.as_slice()), keeper)
        }
        Err(OpenFault::KeeperFault { keeper }) => (String::from_str(alloc, "fault"), keeper),
        Err(OpenFault::Memory { keeper }) => (String::from_str(alloc, "memory"), keeper),
    }
}

// What opening comes to over a keeper, its faults, and its rows afterwards.
fn comes_to(alloc: Global, keeper: MemKeeper) -> Result<String, AllocError> {
    let (told, mut keeper) = opened(alloc, keeper);
    let faults = keeper.faults();
    let after = rows(alloc, &mut keeper);
    format!(in alloc; "{} {faults} {}", told?.as_str().trim(), after?)
}

// What that has to be where opening comes to the words and the rows stay.
fn told_so(alloc: Global, words: &str, text: &str) -> Result<String, Fail> {
    let kept = rows(alloc, &mut keeper_of(alloc, text, Vec::new(alloc))?)?;
    Ok(format!(in alloc; "{} 0 {kept}", words.trim())?)
}

// Opens a node over each line of a table, and fails at the first one that comes to something else. A
// line is rows and, after `->`, what opening comes to; with none, its only row is the bad one. `#`
// begins a remark.
fn open_each(alloc: Global, table: &str) -> Result<(), Fail> {
    for line in table.lines() {
        if !line.trim_start().starts_with("#") {
            open_over(alloc, line)?;
        }
    }
    Ok(())
}

fn open_over(alloc: Global, line: &str) -> Result<(), Fail> {
    let (text, words) = wanted(line);
    let told = comes_to(alloc, keeper_of(alloc, text, Vec::new(alloc))?)?;
    let want = told_so(alloc, words, text)?;
    compare(line, told.as_str(), want.as_str())
}

// The rows of a line, and what they come to.
fn wanted(line: &str) -> (&str, &str) {
    match line.split_once("->") {
        Some((text, want)) => (text, want),
        None => {
            let (row, _) = line.split_once("=").unwrap_or((line, ""));
            (line, row)
        }
    }
}

// 78 is x, 79 is y, 2e676974 is .git, and 726566732f is refs/.
const BAD_ROWS: &str = "\
    # Another table than the three of a node.
    5 792e676974=000000000000000000000000000000000000
    9 =
    255 00=00
    # A value of 17 bytes, one of 19, and one of none.
    6 782e676974=0000000000000003010000000000000002
    6 782e676974=00000000000000030100000000000000020100
    6 782e676974=
    # Flags of 2: that of the last lease, and that of what is held.
    6 782e676974=000000000000000302000000000000000201
    6 782e676974=000000000000000301000000000000000202
    # A last lease of 2^64 - 1, and one whose flag is 0.
    6 782e676974=000000000000000301ffffffffffffffff01
    6 782e676974=000000000000000300000000000000000201
    # The key is `.`, or nothing, which are no paths.
    6 2e=000000000000000000000000000000000000
    6 =000000000000000000000000000000000000
    # x.git is no longer held.
    6 782e676974=000000000000000301000000000000000200 \
        -> 7 782e67697400726566732f746167732f656d707479
    # A reference refs/a of y.git, which has no row.
    7 792e67697400726566732f61=e69de29bb2d1d6434b8b29ae775ad8c2e48c5391
    # A key with no NUL, and the name refs/, which is none.
    7 782e676974=e69de29bb2d1d6434b8b29ae775ad8c2e48c5391
    7 782e67697400726566732f=e69de29bb2d1d6434b8b29ae775ad8c2e48c5391
    # The zero id, and ids of 19 and of 21 bytes.
    7 782e67697400726566732f61=0000000000000000000000000000000000000000
    7 782e67697400726566732f61=e69de29bb2d1d6434b8b29ae775ad8c2e48c53
    7 782e67697400726566732f61=e69de29bb2d1d6434b8b29ae775ad8c2e48c539100
    # The empty tree under another id, under one of 21 bytes, and of y.git.
    8 782e676974004b825dc642cb6eb9a060e54bf8d69288fbee4905=02
    8 782e676974004b825dc642cb6eb9a060e54bf8d69288fbee490400=02
    8 792e676974004b825dc642cb6eb9a060e54bf8d69288fbee4904=02
    # The blob with a byte left over, a value of no bytes, and one of the kind 5.
    8 782e67697400e69de29bb2d1d6434b8b29ae775ad8c2e48c5391=0300
    8 782e67697400e69de29bb2d1d6434b8b29ae775ad8c2e48c5391=
    8 782e67697400e69de29bb2d1d6434b8b29ae775ad8c2e48c5391=05
    # The tree `100648 a` under the SHA-1 of `tree 8`, a NUL and itself: 8 is no octal digit.
    8 782e67697400230e99c1a5855b5f99713365c78f7e6102ef15bb=023130303634382061";

#[test]
fn a_bad_row_is_named(rt: HostRuntime) -> Result<(), Fail> {
    open_each(rt.alloc(), BAD_ROWS)
}

const GOOD_ROWS: &str = "\
    -> ok
    # Of y.git: as if it were never heard of, the greatest fence alone, and held with nothing and
    # the greatest last lease.
    6 792e676974=000000000000000000000000000000000000 -> ok
    6 792e676974=ffffffffffffffff00000000000000000000 -> ok
    6 792e676974=000000000000000001fffffffffffffffe01 -> ok
    # A reference to the empty tree, which is not there, and the empty tree.
    7 782e67697400726566732f61=4b825dc642cb6eb9a060e54bf8d69288fbee4904 -> ok
    8 782e676974004b825dc642cb6eb9a060e54bf8d69288fbee4904=02 -> ok";

#[test]
fn good_rows_are_taken_over(rt: HostRuntime) -> Result<(), Fail> {
    open_each(rt.alloc(), GOOD_ROWS)
}

const FIRST_BAD_ROWS: &str = "\
    # Tables 3 and 8, and 9 and 7: a lower table comes first, also where its row was put last.
    8 782e67697400e69de29bb2d1d6434b8b29ae775ad8c2e48c5391=05 3 79=00 -> 3 79
    9 61= 7 62= -> 7 62
    # In a table the least key comes first, and one before each key that it begins.
    6 792e676974=00 6 782e676974=00 -> 6 782e676974
    8 7900=03 8 79=03 -> 8 79
    # x.git is not held, so its reference is bad before its blob.
    8 782e67697400e69de29bb2d1d6434b8b29ae775ad8c2e48c5391=05 \
        6 782e676974=000000000000000301000000000000000200 \
        -> 7 782e67697400726566732f746167732f656d707479
    # The references refs/a, refs/a- and refs/a/b; the first two alone; and refs/tags alone.
    7 782e67697400726566732f61=e69de29bb2d1d6434b8b29ae775ad8c2e48c5391 \
        7 782e67697400726566732f612d=e69de29bb2d1d6434b8b29ae775ad8c2e48c5391 \
        7 782e67697400726566732f612f62=e69de29bb2d1d6434b8b29ae775ad8c2e48c5391 \
        -> 7 782e67697400726566732f612f62
    7 782e67697400726566732f61=e69de29bb2d1d6434b8b29ae775ad8c2e48c5391 \
        7 782e67697400726566732f612d=e69de29bb2d1d6434b8b29ae775ad8c2e48c5391 -> ok
    7 782e67697400726566732f74616773=e69de29bb2d1d6434b8b29ae775ad8c2e48c5391 \
        -> 7 782e67697400726566732f746167732f656d707479
    # Of refs/a, refs/a/b and refs/a/c, and the zero id of refs/b, refs/a/b is the first.
    7 782e67697400726566732f62=0000000000000000000000000000000000000000 \
        7 782e67697400726566732f612f63=e69de29bb2d1d6434b8b29ae775ad8c2e48c5391 \
        7 782e67697400726566732f612f62=e69de29bb2d1d6434b8b29ae775ad8c2e48c5391 \
        7 782e67697400726566732f61=e69de29bb2d1d6434b8b29ae775ad8c2e48c5391 \
        -> 7 782e67697400726566732f612f62";

#[test]
fn of_several_bad_rows_the_one_in_the_earliest_place_is_named(rt: HostRuntime) -> Result<(), Fail> {
    open_each(rt.alloc(), FIRST_BAD_ROWS)
}

// The rows of 1200 repositories, each as if it were never heard of.
fn keeper_of_many(alloc: Global) -> Result<MemKeeper, Fail> {
    let mut batch = Batch::new(alloc);
    for number in 0u64..1200 {
        let path = format!(in alloc; "{number}.git")?;
        batch.put(alloc, 6, path.as_bytes(), &[0; 18])?;
    }
    let mut keeper = MemKeeper::new(alloc, Vec::new(alloc));
    keeper.commit(batch)?;
    Ok(keeper)
}

#[test]
fn many_rows_are_taken_over(rt: HostRuntime) -> Result<(), Fail> {
    let (told, _) = opened(rt.alloc(), keeper_of_many(rt.alloc())?);
    compare("an opening", told?.as_str(), "ok")
}

// What opening comes to over the good rows where a call of the keeper fails.
fn failing_at(alloc: Global, call: u64) -> Result<String, Fail> {
    let calls = Vec::from_slice(alloc, &[call])?;
    Ok(comes_to(alloc, keeper_of(alloc, "", calls)?)?)
}

#[test]
fn a_keeper_that_fails_is_given_back_with_its_rows(rt: HostRuntime) -> Result<(), Fail> {
    let wanted = format!(in rt.alloc(); "fault 1 {GOOD}")?;
    // The first call puts the rows. A scan for each of three rows, and one for the end of each of 256
    // tables, are the calls 2 to 260.
    for call in 2u64..261 {
        let told = failing_at(rt.alloc(), call)?;
        compare("a scan", told.as_str(), wanted.as_str())?;
    }
    // Opening makes no call more: the call 261 fails where the rows are listed afterwards.
    let told = failing_at(rt.alloc(), 261)?;
    compare("an opening", told.as_str(), "ok 0 a scan failed")
}
