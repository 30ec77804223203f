//! `rows`: reads maps of rows, a row a line as `TABLE SP KEY SP VALUE` with key and value in
//! hexadecimal, and an empty line behind each map, which the last one may lack. It opens a node over
//! each map, and prints a line for it: `ok`, or `bad TABLE KEY` with the first row that a node may
//! not have.

use crate::end::{End, print};
use crate::references::field;
use px_base::{LineEnd, Sink, Source, line};
use px_keeper::{Batch, KeepFault, Keeper, MemKeeper};
use px_node::{OpenFault, Shelf};
use std::alloc::Global;

/// More than a line takes whose row has an object of the greatest size: two digits for each byte of
/// its content, and its key.
const LINE_BYTES: usize = 17_000_000;

fn bytes_of(alloc: Global, digits: &[u8]) -> Result<Vec<u8>, End> {
    match hex::decode(alloc, digits) {
        Ok(bytes) => Ok(bytes),
        Err(hex::FromHexError::OutOfMemory) => Err(End::Memory),
        Err(_) => Err(End::BadInput),
    }
}

fn table_of(digits: &[u8]) -> Option<u8> {
    str::from_utf8(digits).ok()?.parse::<u8>().ok()
}

// Adds that the row of a line is put.
fn put_row(alloc: Global, batch: &mut Batch, text: &[u8]) -> Result<(), End> {
    let (table, rest) = field(text).ok_or(End::BadInput)?;
    let (key, value) = field(rest).ok_or(End::BadInput)?;
    let table = table_of(table).ok_or(End::BadInput)?;
    let key = bytes_of(alloc, key)?;
    let value = bytes_of(alloc, value)?;
    batch.put(alloc, table, &key, &value)?;
    Ok(())
}

// Adds that the rows of the next map are put, and says whether an empty line stood behind them.
fn put_map<S: Source>(alloc: Global, input: &mut S, batch: &mut Batch) -> Result<bool, End> {
    for _ in 0..u64::MAX {
        match line(alloc, input, LINE_BYTES) {
            LineEnd::Line(text) => {
                if text.is_empty() {
                    return Ok(true);
                }
                put_row(alloc, batch, text.as_slice())?;
            }
            LineEnd::End => return Ok(false),
            LineEnd::TooLong => return Err(End::BadInput),
            LineEnd::ReadFault => return Err(End::ReadFault),
            LineEnd::Memory => return Err(End::Memory),
        }
    }
    Ok(false)
}

// A keeper in memory of these rows.
fn keeper_of(alloc: Global, batch: Batch) -> Result<MemKeeper, End> {
    let mut keeper = MemKeeper::new(alloc, Vec::new(alloc));
    match keeper.commit(batch) {
        Ok(()) => Ok(keeper),
        Err(KeepFault::Memory) => Err(End::Memory),
        Err(KeepFault::Failed) => Err(End::BadInput),
    }
}

// The line of a map.
fn line_of(alloc: Global, batch: Batch) -> Result<String, End> {
    let keeper = keeper_of(alloc, batch)?;
    match Shelf::open(alloc, keeper) {
        Ok(_) => Ok(String::from_str(alloc, "ok\n")?),
        Err(OpenFault::BadRow { table, key, .. }) => {
            let key = hex::encode(alloc, key.as_slice())?;
            Ok(format!(in alloc; "bad {table} {key}\n")?)
        }
        Err(OpenFault::KeeperFault { .. }) => Err(End::BadInput),
        Err(OpenFault::Memory { .. }) => Err(End::Memory),
    }
}

/// Reads maps of rows to the end of the input, and prints the line of each.
pub fn rows<S: Source, O: Sink>(alloc: Global, input: &mut S, out: &mut O) -> Result<(), End> {
    for _ in 0..u64::MAX {
        let mut batch = Batch::new(alloc);
        let more = put_map(alloc, input, &mut batch)?;
        if more || !batch.is_empty() {
            print(out, line_of(alloc, batch)?.as_bytes())?;
        }
        if !more {
            return Ok(());
        }
    }
    Ok(())
}
