//! The keepers in memory.

use crate::answers::add;
use crate::calls;
use px_base::Bytes;
use px_keeper::{ArmedKeeper, Batch, KeepFault, Keeper, MemKeeper, SureKeeper};
use px_node::Shelf;
use std::alloc::{AllocError, Global};
use std::test::Fail;
use tests_tables::play;

// A row as `TABLE KEY=VALUE`, key and value in hexadecimal.
fn row(alloc: Global, table: u8, key: &Bytes, value: &Bytes) -> Result<String, AllocError> {
    let key = hex::encode(alloc, key.as_slice())?;
    let value = hex::encode(alloc, value.as_slice())?;
    format!(in alloc; "{table} {key}={value}")
}

/// All rows of the tables 6 to 8, in order, up to a scan that fails.
pub fn rows<K: Keeper>(alloc: Global, keeper: &mut K) -> Result<String, AllocError> {
    let mut shown = String::new(alloc);
    for table in 6u8..9 {
        let mut after = Bytes::new(alloc);
        let mut first = true;
        for _ in 0..100 {
            let from = if first { None } else { Some(after.as_slice()) };
            match keeper.scan(alloc, table, from) {
                Ok(Some((key, value))) => {
                    add(&mut shown, row(alloc, table, &key, &value)?.as_str())?;
                    after = key;
                    first = false;
                }
                Ok(None) => break,
                Err(_) => {
                    add(&mut shown, "a scan failed")?;
                    return Ok(shown);
                }
            }
        }
    }
    Ok(shown)
}

// Rows that are put, each as a digit for the table, a letter for the key and a letter for the value,
// or taken away where the value is `-`.
fn batch(alloc: Global, words: &str) -> Result<Batch, AllocError> {
    let mut batch = Batch::new(alloc);
    for word in words.split_whitespace() {
        match word.as_bytes() {
            [digit, key, b'-'] => batch.remove(alloc, digit.wrapping_sub(b'0'), &[*key])?,
            [digit, key, value] => batch.put(alloc, digit.wrapping_sub(b'0'), &[*key], &[*value])?,
            _ => {}
        }
    }
    Ok(batch)
}

// The length of a batch, and what committing it comes to.
fn commit<K: Keeper>(alloc: Global, keeper: &mut K, words: &str) -> Result<String, AllocError> {
    let batch = batch(alloc, words)?;
    let changes = batch.len();
    let word = match keeper.commit(batch) {
        Ok(()) => "ok",
        Err(KeepFault::Failed) => "failed",
        Err(KeepFault::Memory) => "memory",
    };
    format!(in alloc; "{changes} {word}")
}

// The value of a row, given as a digit for the table and a letter for the key.
fn get<K: Keeper>(alloc: Global, keeper: &mut K, row: &str) -> Result<String, AllocError> {
    let [digit, key] = row.as_bytes() else {
        return String::from_str(alloc, "no row");
    };
    match keeper.get(alloc, digit.wrapping_sub(b'0'), &[*key]) {
        Ok(Some(value)) => hex::encode(alloc, value.as_slice()),
        Ok(None) => String::from_str(alloc, "none"),
        Err(_) => String::from_str(alloc, "failed"),
    }
}

// The row of a table above a key, given as a digit for the table and a letter for the key.
fn scan<K: Keeper>(alloc: Global, keeper: &mut K, after: &str) -> Result<String, AllocError> {
    let [digit, key] = after.as_bytes() else {
        return String::from_str(alloc, "no row");
    };
    let table = digit.wrapping_sub(b'0');
    match keeper.scan(alloc, table, Some(&[*key])) {
        Ok(Some((key, value))) => row(alloc, table, &key, &value),
        Ok(None) => String::from_str(alloc, "none"),
        Err(_) => String::from_str(alloc, "failed"),
    }
}

// What any keeper answers to a call.
fn answer<K: Keeper>(
    alloc: Global,
    keeper: &mut K,
    name: &str,
    words: &str,
) -> Result<String, Fail> {
    Ok(match name {
        "commit" => commit(alloc, keeper, words)?,
        "get" => get(alloc, keeper, words)?,
        "scan" => scan(alloc, keeper, words)?,
        "faults" => format!(in alloc; "{}", keeper.faults())?,
        "rows" => rows(alloc, keeper)?,
        _ => return Err(Fail::new("no such call")),
    })
}

// What one with listed failures answers.
fn answer_of_listed(
    alloc: Global,
    keeper: &mut MemKeeper,
    name: &str,
    words: &str,
) -> Result<String, Fail> {
    match name {
        "calls" => Ok(format!(in alloc; "{}", keeper.calls())?),
        _ => answer(alloc, keeper, name, words),
    }
}

// What one that can be armed answers.
fn answer_of_armed(
    alloc: Global,
    keeper: &mut ArmedKeeper,
    name: &str,
    words: &str,
) -> Result<String, Fail> {
    if name == "arm" {
        keeper.arm();
        return Ok(String::from_str(alloc, "armed")?);
    }
    answer(alloc, keeper, name, words)
}

// Makes the calls of a table to a keeper that has no rows, and of which these calls fail.
fn play_at_first(alloc: Global, failing: &[u64], table: &str) -> Result<(), Fail> {
    let mut keeper = MemKeeper::new(alloc, Vec::from_slice(alloc, failing)?);
    play(alloc, &mut keeper, answer_of_listed, table)
}

const WHOLE: &str = "\
    commit 7b1 7a2 6c3 7b4 8d5 8d- 6x- -> 7 ok
    rows -> 6 63=33 7 61=32 7 62=34
    get 7b -> 34
    get 8d -> none
    scan 7a -> 7 62=34
    scan 7b -> none
    commit -> 0 ok
    faults -> 0";

#[test]
fn a_batch_is_kept_whole_and_in_order(rt: HostRuntime) -> Result<(), Fail> {
    play_at_first(rt.alloc(), &[], WHOLE)
}

#[test]
fn a_keeper_that_is_sure_keeps_rows_and_never_fails(rt: HostRuntime) -> Result<(), Fail> {
    let alloc = rt.alloc();
    play(
        alloc,
        &mut SureKeeper::new(alloc),
        answer::<SureKeeper>,
        WHOLE,
    )
}

const FAILING: &str = "\
    commit 6a1 -> 1 ok
    commit 6b2 6a- -> 2 failed
    get 6a -> failed
    rows -> a scan failed
    faults -> 3
    rows -> 6 61=31";

#[test]
fn a_call_that_fails_does_nothing_and_is_counted(rt: HostRuntime) -> Result<(), Fail> {
    play_at_first(rt.alloc(), &[2, 3, 4], FAILING)
}

// `rows` makes a call for each row and one for the end of each of three tables.
const COUNTED: &str = "\
    calls -> 0
    commit 6a1 -> 1 ok
    calls -> 1
    get 6a -> failed
    scan 6a -> none
    calls -> 3
    faults -> 1
    calls -> 3
    rows -> 6 61=31
    calls -> 7";

#[test]
fn calls_are_counted_and_so_are_those_that_fail(rt: HostRuntime) -> Result<(), Fail> {
    play_at_first(rt.alloc(), &[2], COUNTED)
}

const ARMED: &str = "\
    commit 6a1 -> 1 ok
    arm -> armed
    get 6a -> 31
    scan 6a -> none
    arm -> armed
    faults -> 0
    commit 6a2 7b3 -> 2 failed
    faults -> 1
    rows -> 6 61=31
    commit 6a2 7b3 -> 2 ok
    faults -> 1
    rows -> 6 61=32 7 62=33
    arm -> armed
    commit -> 0 failed
    faults -> 2
    commit -> 0 ok";

#[test]
fn an_armed_keeper_fails_at_its_next_commit_alone(rt: HostRuntime) -> Result<(), Fail> {
    let alloc = rt.alloc();
    play(alloc, &mut ArmedKeeper::new(alloc), answer_of_armed, ARMED)
}

// A text of 300 digits that ends in the number.
fn long_text(alloc: Global, number: u64) -> Result<String, AllocError> {
    format!(in alloc; "{number:0300}")
}

// Puts 1200 rows by one batch, each with a key of 300 bytes, and fails where a value is not read again.
fn keeps_many<K: Keeper>(alloc: Global, keeper: &mut K) -> Result<(), Fail> {
    let mut batch = Batch::new(alloc);
    for number in 0u64..1200 {
        let text = long_text(alloc, number)?;
        batch.put(alloc, 6, text.as_bytes(), text.as_bytes())?;
    }
    keeper.commit(batch)?;
    for number in 0u64..1200 {
        let text = long_text(alloc, number)?;
        has_value(alloc, keeper, text.as_bytes(), text.as_bytes())?;
    }
    Ok(())
}

fn has_value<K: Keeper>(
    alloc: Global,
    keeper: &mut K,
    key: &[u8],
    want: &[u8],
) -> Result<(), Fail> {
    match keeper.get(alloc, 6, key)? {
        Some(value) if value.as_slice() == want => Ok(()),
        _ => Err(Fail::new("another value")),
    }
}

// Puts a value of 100,000 bytes, and fails where it is not read again.
fn keeps_long<K: Keeper>(alloc: Global, keeper: &mut K) -> Result<(), Fail> {
    let value = vec![in alloc; 7u8; 100000]?;
    let mut batch = Batch::new(alloc);
    batch.put(alloc, 6, b"long", &value)?;
    keeper.commit(batch)?;
    has_value(alloc, keeper, b"long", &value)
}

#[test]
fn many_rows_and_long_ones_are_kept(rt: HostRuntime) -> Result<(), Fail> {
    let alloc = rt.alloc();
    let mut keeper = SureKeeper::new(alloc);
    keeps_many(alloc, &mut keeper)?;
    keeps_long(alloc, &mut keeper)
}

// The fault comes at the first effect, which is then as if it had not been asked for.
const OVER_ARMED: &str = "\
    list ->
    fence x.git 0 -> no repo
    create x.git 1 -> fault
    list ->
    create x.git 1 -> ok
    list -> x.git";

#[test]
fn a_node_is_opened_over_an_armed_keeper_and_faults_once(rt: HostRuntime) -> Result<(), Fail> {
    let mut keeper = ArmedKeeper::new(rt.alloc());
    keeper.arm();
    match Shelf::open(rt.alloc(), keeper) {
        Ok(mut node) => calls::play(rt.alloc(), &mut node, OVER_ARMED),
        Err(_) => Err(Fail::new("the node was not opened")),
    }
}
