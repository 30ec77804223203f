//! The rows of a keeper, read one after the other.

ghost use Rattle.std.specs.Prelude.{◌≡◌, ◌≢◌, ◌+◌, None, Some, Err, IsSome, IfOk, IfErr, OnOk};
ghost use Rattle.std.specs.Option.{option_copied};
ghost use Rattle.px_keeper.specs.FirstBad.{AllGood};
ghost use Rattle.px_keeper.specs.OpenEnds.{IsNoFault, IsNotBad, OpensNot, keeper_in};
ghost use Rattle.px_keeper.specs.Reading.{all_rows, no_rows};
ghost use Rattle.px_keeper.specs.Row.{Rows};
ghost use Rattle.px_keeper.specs.Unread.{IsUnread, ReadUpTo, UnreadHasCause};

use crate::{KeepFault, Keeper, NotTaken, OpenFault, TakeRows};
use px_base::Bytes;
use std::alloc::Global;

// Why rows were not read to their end.
#[derive(Drop)]
pub(crate) enum Unread {
    // The row is bad.
    BadRow { table: u8, key: Bytes },
    // The keeper failed.
    Fault,
    // Memory wanted.
    Memory,
}

/// Reads all rows of a keeper into what takes them, which has nothing yet: each once, table by table,
/// and in a table in the order of the keys. It stops at the first one that is bad.
pub fn read_all<K: Keeper + Drop, T: TakeRows + Drop>(
    alloc: Global,
    keeper: K,
    taker: T,
) -> Result<(K, T), OpenFault<K>>
    requires nothing { T.has taker no_rows }
    requires whole { T.whole taker }

    // The rows are good, and what they say is had; the keeper is as it was.
    ensures ok { IfOk result (λ read. (rows : Rows) → K.rows keeper ≡ Some rows
        → AllGood T.good rows × T.has read.1 (all_rows rows)) }
    ensures whole { IfOk result (λ read. T.whole read.1) }
    ensures keeper { IfOk result (λ read. (K.rows read.0 ≡ K.rows keeper)
        × (K.keep_faults read.0 ≡ K.keep_faults keeper)) }
    ensures err { IfErr result (OpensNot T.good K.rows K.keep_faults keeper) }

    // Rows that are all good are not refused as bad.
    ensures good { (rows : Rows) → K.rows keeper ≡ Some rows → AllGood T.good rows
        → IfErr result IsNotBad }

    // Whether the next commit fails is as it was, and one that tells it does not fail here.
    ensures plan { IfOk result (λ read. K.commit_fails read.0 ≡ K.commit_fails keeper) }
    ensures plan_kept { IfErr result (λ fault.
        K.commit_fails (keeper_in fault) ≡ K.commit_fails keeper) }
    ensures sure { IsSome (K.commit_fails keeper) → IfErr result IsNoFault }
{
    let mut keeper = keeper;
    let mut taker = taker;
    match read_rows(alloc, &mut keeper, &mut taker) {
        Ok(()) => Ok((keeper, taker)),
        Err(Unread::BadRow { table, key }) => Err(OpenFault::BadRow { keeper, table, key }),
        Err(Unread::Fault) => Err(OpenFault::KeeperFault { keeper }),
        Err(Unread::Memory) => Err(OpenFault::Memory { keeper }),
    }
}

// Reads all rows, table by table.
fn read_rows<K: Keeper, T: TakeRows>(
    alloc: Global,
    keeper: &mut K,
    taker: &mut T,
) -> Result<(), Unread>
    requires whole { T.whole taker.old }
    requires read { ReadUpTo T.good (T.has taker.old) (K.rows keeper.old) 0 None }
    ensures ok { OnOk result (ReadUpTo T.good (T.has taker.new) (K.rows keeper.old) 256 None) }
    ensures bad { IfErr result (IsUnread T.good (K.rows keeper.old)) }
    ensures whole { OnOk result (T.whole taker.new) }
    ensures same { K.rows keeper.new ≡ K.rows keeper.old }
    ensures cause { UnreadHasCause (K.keep_faults keeper.old) (K.keep_faults keeper.new) result }
    ensures plan { K.commit_fails keeper.new ≡ K.commit_fails keeper.old }
    ensures sure { IsSome (K.commit_fails keeper.old) → result ≢ Err Unread.Fault }
{
    for table in 0u16..256 {
        read_table(alloc, keeper, taker, table as u8)?;
    }
    Ok(())
}

// Reads the rows of a table.
fn read_table<K: Keeper, T: TakeRows>(
    alloc: Global,
    keeper: &mut K,
    taker: &mut T,
    table: u8,
) -> Result<(), Unread>
    requires whole { T.whole taker.old }
    requires read { ReadUpTo T.good (T.has taker.old) (K.rows keeper.old) table None }
    ensures ok { OnOk result
        (ReadUpTo T.good (T.has taker.new) (K.rows keeper.old) (table + 1) None) }
    ensures bad { IfErr result (IsUnread T.good (K.rows keeper.old)) }
    ensures whole { OnOk result (T.whole taker.new) }
    ensures same { K.rows keeper.new ≡ K.rows keeper.old }
    ensures cause { UnreadHasCause (K.keep_faults keeper.old) (K.keep_faults keeper.new) result }
    ensures plan { K.commit_fails keeper.new ≡ K.commit_fails keeper.old }
    ensures sure { IsSome (K.commit_fails keeper.old) → result ≢ Err Unread.Fault }
{
    let mut last = None;
    for _ in 0..u64::MAX {
        match read_next(alloc, keeper, taker, table, last)? {
            Some(key) => last = Some(key),
            None => return Ok(()),
        }
    }
    // There are more rows than memory could hold.
    Err(Unread::Memory)
}

// Reads the row of a table above the last one, if there is one, and gives its key.
fn read_next<K: Keeper, T: TakeRows>(
    alloc: Global,
    keeper: &mut K,
    taker: &mut T,
    table: u8,
    last: Option<Bytes>,
) -> Result<Option<Bytes>, Unread>
    requires whole { T.whole taker.old }
    requires read { ReadUpTo T.good (T.has taker.old) (K.rows keeper.old) table last }
    ensures more { IfOk result (λ key. key ≢ None
        → ReadUpTo T.good (T.has taker.new) (K.rows keeper.old) table key) }
    ensures end { IfOk result (λ key. key ≡ None
        → ReadUpTo T.good (T.has taker.new) (K.rows keeper.old) (table + 1) None) }
    ensures bad { IfErr result (IsUnread T.good (K.rows keeper.old)) }
    ensures whole { OnOk result (T.whole taker.new) }
    ensures same { K.rows keeper.new ≡ K.rows keeper.old }
    ensures cause { UnreadHasCause (K.keep_faults keeper.old) (K.keep_faults keeper.new) result }
    ensures plan { K.commit_fails keeper.new ≡ K.commit_fails keeper.old }
    ensures sure { IsSome (K.commit_fails keeper.old) → result ≢ Err Unread.Fault }
{
    let (key, value) = match keeper.scan(alloc, table, bytes_of(&last)) {
        Ok(Some(row)) => row,
        Ok(None) => return Ok(None),
        Err(KeepFault::Failed) => return Err(Unread::Fault),
        Err(KeepFault::Memory) => return Err(Unread::Memory),
    };
    match taker.take(alloc, table, key.as_slice(), value.as_slice()) {
        Ok(()) => Ok(Some(key)),
        Err(NotTaken::BadRow) => Err(Unread::BadRow { table, key }),
        Err(NotTaken::Memory) => Err(Unread::Memory),
    }
}

// The bytes of a key, if there is one.
fn bytes_of(key: &Option<Bytes>) -> Option<&[u8]>
    ensures { option_copied result ≡ key.now }
{
    match key {
        Some(key) => Some(key.as_slice()),
        None => None,
    }
}
