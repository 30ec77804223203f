//! `hook` and `vote`: read a push, a line for each update as `OLD SP NEW SP NAME`, and print the text
//! that Git's hook is given of it, or the vote on it. `create N TURNS` and `change N TURNS`: prepare
//! N creations on no references, or one update on N references, and print how many there are then, as many
//! times as TURNS says.

use crate::end::{End, number, print};
use px_base::{Bytes, Hash, LineEnd, NameFault, RefName, Sink, Source, Update, Updates, line};
use refstore::{Prepared, RefRefusal, Refs, hook_text, vote_of};
use std::alloc::Global;

/// More than the longest line of an update takes.
const LINE_BYTES: usize = 512;

/// What stands before the first space, and what stands after it.
pub fn field(text: &[u8]) -> Option<(&[u8], &[u8])> {
    let space = text.iter().position(|byte| *byte == b' ')?;
    Some((&text[..space], &text[space + 1..]))
}

// The two object names, and the rest of the line.
fn names_of(text: &[u8]) -> Option<(Hash, Hash, &[u8])> {
    let (old, rest) = field(text)?;
    let (new, name) = field(rest)?;
    Some((Hash::read(old)?, Hash::read(new)?, name))
}

fn update_of(alloc: Global, text: &[u8]) -> Result<Update, End> {
    let (old, new, name) = names_of(text).ok_or(End::BadInput)?;
    let name = name_of(alloc, name)?;
    Ok(Update { old, new, name })
}

/// The name of a reference that a text is.
pub fn name_of(alloc: Global, text: &[u8]) -> Result<RefName, End> {
    match RefName::read(alloc, text) {
        Ok(name) => Ok(name),
        Err(NameFault::BadName { .. }) => Err(End::BadInput),
        Err(NameFault::Memory) => Err(End::Memory),
    }
}

// The updates to the end of the input.
fn updates<S: Source>(alloc: Global, input: &mut S) -> Result<Updates, End> {
    let mut updates = Updates::new(alloc);
    for _ in 0..u64::MAX {
        match line(alloc, input, LINE_BYTES) {
            LineEnd::Line(text) => updates.push(update_of(alloc, text.as_slice())?)?,
            LineEnd::End => return Ok(updates),
            LineEnd::TooLong => return Err(End::BadInput),
            LineEnd::ReadFault => return Err(End::ReadFault),
            LineEnd::Memory => return Err(End::Memory),
        }
    }
    Ok(updates)
}

/// Prints the hook text of the push.
pub fn hook<S: Source, O: Sink>(alloc: Global, input: &mut S, out: &mut O) -> Result<(), End> {
    let updates = updates(alloc, input)?;
    let text = hook_text(alloc, updates.as_slice())?;
    print(out, text.as_slice())
}

/// Prints the vote on the push.
pub fn vote<S: Source, O: Sink>(alloc: Global, input: &mut S, out: &mut O) -> Result<(), End> {
    let updates = updates(alloc, input)?;
    let mut text = Bytes::from_slice(alloc, &vote_of(updates.as_slice()).text())?;
    text.push(b'\n')?;
    print(out, text.as_slice())
}

// An update of the branch of a number.
fn update(alloc: Global, number: u32, old: Hash, new: Hash) -> Result<Update, End> {
    let text = format!(in alloc; "refs/heads/branch-{number:08}")?;
    let name = name_of(alloc, text.as_bytes())?;
    Ok(Update { old, new, name })
}

// So many creations, each of another branch.
fn creations(alloc: Global, count: u32) -> Result<Updates, End> {
    let mut updates = Updates::new(alloc);
    for number in 0..count {
        updates.push(update(alloc, number, Hash::zero(), Hash([1; 20]))?)?;
    }
    Ok(updates)
}

fn prepare(alloc: Global, refs: &Refs, updates: &Updates) -> Result<Prepared, End> {
    match Prepared::new(alloc, refs, updates.as_slice()) {
        Ok(prepared) => Ok(prepared),
        Err(RefRefusal::Memory) => Err(End::Memory),
        Err(_) => Err(End::BadInput),
    }
}

// How many references there are once the updates are done.
fn count_after(alloc: Global, refs: &Refs, updates: &Updates) -> Result<usize, End> {
    let prepared = prepare(alloc, refs, updates)?;
    Ok(prepared.refs().len())
}

// Prepares the updates as many times as there are turns, and prints how many references there are
// afterwards.
fn tell<O: Sink>(
    alloc: Global,
    refs: &Refs,
    updates: &Updates,
    turns: u32,
    out: &mut O,
) -> Result<(), End> {
    for _ in 0..turns {
        let line = format!(in alloc; "{}\n", count_after(alloc, refs, updates)?)?;
        print(out, line.as_bytes())?;
    }
    Ok(())
}

/// Prepares so many creations on no references.
pub fn create<O: Sink>(alloc: Global, count: &str, turns: &str, out: &mut O) -> Result<(), End> {
    let updates = creations(alloc, number(count)?)?;
    tell(alloc, &Refs::new(alloc), &updates, number(turns)?, out)
}

// So many references.
fn created(alloc: Global, count: u32) -> Result<Refs, End> {
    let mut refs = Refs::new(alloc);
    let updates = creations(alloc, count)?;
    prepare(alloc, &refs, &updates)?.commit(&mut refs);
    Ok(refs)
}

/// Prepares one update on so many references.
pub fn change<O: Sink>(alloc: Global, count: &str, turns: &str, out: &mut O) -> Result<(), End> {
    let refs = created(alloc, number(count)?)?;
    let mut one = Updates::new(alloc);
    one.push(update(alloc, 0, Hash([1; 20]), Hash([2; 20]))?)?;
    tell(alloc, &refs, &one, number(turns)?, out)
}
