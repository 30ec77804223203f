//! As many storages as there may be.

use crate::scripts::play;
use std::alloc::{AllocError, Global};
use std::test::Fail;

// A table of 64 storages of one virtual storage, named by their numbers.
fn storages(alloc: Global) -> Result<String, AllocError> {
    let mut table = String::new(alloc);
    for number in 0u32..64 {
        let line = format!(in alloc; "storage v {number} -> storage {number}\n")?;
        table.push_str(line.as_str())?;
    }
    Ok(table)
}

const PAST_STORAGES: &str = "\
    storage v 64 -> refused TooManyStorages
    storage v 63 -> refused StorageExists 63
    create v x.git 65 -> refused BadFactor 64
    storage w 64 -> storage 64
    create v x.git 65 -> refused BadFactor 64
    create w x.git 0 -> created 0 lease 1 assigned 64
    booked 0 -> newest 0 64=absent";

#[test]
fn a_virtual_storage_has_at_most_64_storages(rt: HostRuntime) -> Result<(), Fail> {
    let alloc = rt.alloc();
    play(alloc, &[storages(alloc)?.as_str(), PAST_STORAGES])
}
