//! Values as bytes.

use px_base::{Bytes, Kind};
use px_fields::{
    add_flag, add_kind, add_optional_u32, add_optional_u64, add_text, add_u32, add_u64, flag_at,
    id_at, kind_at, lease_at, name_at, optional_lease_at, optional_u32_at, optional_u64_at,
    text_at, u32_at, u64_at,
};
use std::alloc::{AllocError, Global};
use std::fmt::Display;
use std::test::Fail;
use tests_tables::play;

const KINDS: [(&str, Kind); 4] = [
    ("commit", Kind::Commit),
    ("tree", Kind::Tree),
    ("blob", Kind::Blob),
    ("tag", Kind::Tag),
];

// Adds a value, given as a word for what it is and the value.
fn add(bytes: &mut Bytes, what: &str, value: &str) -> Result<(), Fail> {
    Ok(match what {
        "u32" => add_u32(bytes, value.parse::<u32>()?)?,
        "u64" => add_u64(bytes, value.parse::<u64>()?)?,
        "flag" => add_flag(bytes, value == "yes")?,
        "maybe32" => add_maybe_u32(bytes, value)?,
        "maybe64" => add_maybe_u64(bytes, value)?,
        "kind" => add_kind_of(bytes, value)?,
        _ => add_short_text(bytes, value)?,
    })
}

fn add_maybe_u32(bytes: &mut Bytes, value: &str) -> Result<(), Fail> {
    match value {
        "-" => Ok(add_optional_u32(bytes, None)?),
        _ => Ok(add_optional_u32(bytes, Some(value.parse::<u32>()?))?),
    }
}

fn add_maybe_u64(bytes: &mut Bytes, value: &str) -> Result<(), Fail> {
    match value {
        "-" => Ok(add_optional_u64(bytes, None)?),
        _ => Ok(add_optional_u64(bytes, Some(value.parse::<u64>()?))?),
    }
}

fn add_kind_of(bytes: &mut Bytes, value: &str) -> Result<(), AllocError> {
    for (name, kind) in KINDS {
        if name == value {
            return add_kind(bytes, kind);
        }
    }
    Ok(())
}

fn add_short_text(bytes: &mut Bytes, value: &str) -> Result<(), AllocError> {
    if value.len() < 65536 {
        return add_text(bytes, value.as_bytes());
    }
    Ok(())
}

// A value that was added, in hexadecimal.
fn written(alloc: Global, _: &mut (), what: &str, value: &str) -> Result<String, Fail> {
    let mut bytes = Bytes::new(alloc);
    add(&mut bytes, what, value)?;
    Ok(hex::encode(alloc, bytes.as_slice())?)
}

// A value that was read, and what stands behind it in hexadecimal.
fn shown(alloc: Global, value: &str, rest: &[u8]) -> Result<String, AllocError> {
    let rest = hex::encode(alloc, rest)?;
    format!(in alloc; "{value} {rest}")
}

fn none(alloc: Global) -> Result<String, AllocError> {
    String::from_str(alloc, "none")
}

fn number<N: Display + Drop>(
    alloc: Global,
    read: Option<(N, &[u8])>,
) -> Result<String, AllocError> {
    match read {
        Some((number, rest)) => shown(alloc, format!(in alloc; "{number}")?.as_str(), rest),
        None => none(alloc),
    }
}

fn maybe<N: Display + Drop>(
    alloc: Global,
    read: Option<(Option<N>, &[u8])>,
) -> Result<String, AllocError> {
    let Some((number, rest)) = read else {
        return none(alloc);
    };
    match number {
        Some(number) => shown(alloc, format!(in alloc; "{number}")?.as_str(), rest),
        None => shown(alloc, "-", rest),
    }
}

fn lease(alloc: Global, bytes: &[u8]) -> Result<String, AllocError> {
    match lease_at(bytes) {
        Some((lease, rest)) => number(alloc, Some((lease.number(), rest))),
        None => none(alloc),
    }
}

fn maybe_lease(alloc: Global, bytes: &[u8]) -> Result<String, AllocError> {
    match optional_lease_at(bytes) {
        Some((Some(lease), rest)) => maybe(alloc, Some((Some(lease.number()), rest))),
        Some((None, rest)) => shown(alloc, "-", rest),
        None => none(alloc),
    }
}

fn kind(alloc: Global, bytes: &[u8]) -> Result<String, AllocError> {
    let Some((kind, rest)) = kind_at(bytes) else {
        return none(alloc);
    };
    for (name, known) in KINDS {
        if known == kind {
            return shown(alloc, name, rest);
        }
    }
    none(alloc)
}

fn flag(alloc: Global, bytes: &[u8]) -> Result<String, AllocError> {
    match flag_at(bytes) {
        Some((set, rest)) => shown(alloc, if set { "yes" } else { "no" }, rest),
        None => none(alloc),
    }
}

// Bytes that were read, in hexadecimal.
fn raw(alloc: Global, read: Option<(&[u8], &[u8])>) -> Result<String, AllocError> {
    match read {
        Some((bytes, rest)) => shown(alloc, hex::encode(alloc, bytes)?.as_str(), rest),
        None => none(alloc),
    }
}

fn id(alloc: Global, bytes: &[u8]) -> Result<String, AllocError> {
    match id_at(bytes) {
        Some((id, rest)) => raw(alloc, Some((id.as_bytes(), rest))),
        None => none(alloc),
    }
}

fn name(alloc: Global, bytes: &[u8]) -> Result<String, AllocError> {
    match name_at(bytes) {
        Some((name, rest)) => raw(alloc, Some((name.as_bytes(), rest))),
        None => none(alloc),
    }
}

// What bytes begin with, given a word for what is looked for.
fn told(alloc: Global, what: &str, bytes: &[u8]) -> Result<String, AllocError> {
    match what {
        "u32" => number(alloc, u32_at(bytes)),
        "u64" => number(alloc, u64_at(bytes)),
        "lease" => lease(alloc, bytes),
        "flag" => flag(alloc, bytes),
        "maybe32" => maybe(alloc, optional_u32_at(bytes)),
        "maybe64" => maybe(alloc, optional_u64_at(bytes)),
        "maybelease" => maybe_lease(alloc, bytes),
        "kind" => kind(alloc, bytes),
        "id" => id(alloc, bytes),
        "name" => name(alloc, bytes),
        _ => raw(alloc, text_at(bytes)),
    }
}

// What bytes in hexadecimal begin with, given a word for what is looked for.
fn read(alloc: Global, _: &mut (), what: &str, text: &str) -> Result<String, Fail> {
    let bytes = hex::decode(alloc, text)?;
    Ok(told(alloc, what, &bytes)?)
}

// Each value with the bytes that it is written as.
const WRITTEN: &str = "\
    u32 0 -> 00000000
    u32 66051 -> 00010203
    u64 258 -> 0000000000000102
    u64 18446744073709551615 -> ffffffffffffffff
    flag yes -> 01
    flag no -> 00
    maybe32 - -> 0000000000
    maybe32 7 -> 0100000007
    maybe64 - -> 000000000000000000
    maybe64 0 -> 010000000000000000
    kind commit -> 01
    kind tree -> 02
    kind blob -> 03
    kind tag -> 04
    text default -> 000764656661756c74
    text x.git -> 0005782e676974";

#[test]
fn values_are_written_with_the_highest_byte_first(rt: HostRuntime) -> Result<(), Fail> {
    play(rt.alloc(), &mut (), written, WRITTEN)
}

// Bytes with what they begin with, and what stands behind it.
const READ: &str = "\
    u32 00010203 -> 66051 \n\
    u32 000102 -> none
    u64 0000000000000102ff -> 258 ff
    u64 00000000000001 -> none
    lease fffffffffffffffe -> 18446744073709551614 \n\
    lease ffffffffffffffff -> none
    flag 01aa -> yes aa
    flag 00 -> no \n\
    flag 02 -> none
    flag  -> none
    maybe32 010000000709 -> 7 09
    maybe32 0000000000 -> - \n\
    maybe32 0000000001 -> none
    maybe32 0200000001 -> none
    maybe64 010000000000000000 -> 0 \n\
    maybe64 000000000000000001 -> none
    maybelease 01fffffffffffffffe -> 18446744073709551614 \n\
    maybelease 01ffffffffffffffff -> none
    maybelease 000000000000000000 -> - \n\
    kind 00 -> none
    kind 01 -> commit \n\
    kind 04ee -> tag ee
    kind 05 -> none
    id e69de29bb2d1d6434b8b29ae775ad8c2e48c539100 -> e69de29bb2d1d6434b8b29ae775ad8c2e48c5391 00
    id e69de29bb2d1d6434b8b29ae775ad8c2e48c53 -> none
    text 000764656661756c7401 -> 64656661756c74 01
    text 000764656661756c -> none
    text 00 -> none
    text 0000 ->  \n\
    name 000764656661756c74 -> 64656661756c74 \n\
    name 0000 -> none
    name 000764652f61756c74 -> none";

#[test]
fn the_first_bytes_are_the_value_or_none(rt: HostRuntime) -> Result<(), Fail> {
    play(rt.alloc(), &mut (), read, READ)
}
