//! The entries of trees. Each reader gives what stands behind its part, or how many bytes are left
//! from the first bad one on.

ghost use Rattle.std.specs.Prelude.{◌≡◌};
ghost use Rattle.std.specs.Result.{result_err};
ghost use Rattle.object_format.specs.Reading.{Finds, Gives};
ghost use Rattle.object_format.specs.TreeReading.{file_name_at, id_at, in_mode, link_at, mode_at, tree_of};

use crate::read_fault::ReadFault;
use px_base::{Hash, Ids, ObjectId};
use std::alloc::Global;

/// The mode of a submodule, whose object is a commit of another repository.
const SUBMODULE: &[u8] = b"160000";

// An octal digit, at one of the first six places.
fn is_in_mode(place: usize, byte: u8) -> bool
    ensures { result ≡ in_mode place byte }
{
    place < 6 && matches!(byte, b'0'..=b'7')
}

// One to six octal digits, behind which stands a space.
fn mode(bytes: &[u8]) -> Result<(&[u8], &[u8]), usize>
    ensures { Gives (λ parts. (parts.0.now, parts.1.now)) result (mode_at bytes.now) }
{
    for (place, byte) in bytes.iter().enumerate() {
        if is_in_mode(place, *byte) {
            continue;
        }
        if *byte == b' ' && place > 0 {
            return Ok((&bytes[..place], &bytes[place + 1..]));
        }
        return Err(bytes.len() - place);
    }
    Err(0)
}

// A name of at least one byte, behind which stands a NUL.
fn file_name(bytes: &[u8]) -> Result<(&[u8], &[u8]), usize>
    ensures { Gives (λ parts. (parts.0.now, parts.1.now)) result (file_name_at bytes.now) }
{
    for (place, byte) in bytes.iter().enumerate() {
        if *byte != 0 {
            continue;
        }
        if place > 0 {
            return Ok((&bytes[..place], &bytes[place + 1..]));
        }
        return Err(bytes.len() - place);
    }
    Err(0)
}

// The 20 bytes of a name.
#[tactic(auto, unfolding(crate::specs::TreeReading::id_at))]
fn id(bytes: &[u8]) -> Result<(ObjectId, &[u8]), usize>
    ensures { Gives (λ read. (read.0, read.1.now)) result (id_at bytes.now) }
{
    match bytes.split_first_chunk::<20>() {
        Some((id, rest)) => Ok((Hash(*id), rest)),
        None => Err(0),
    }
}

/// The link of the first entry, if it has one, and what stands behind the entry.
#[tactic(auto, unfolding(crate::specs::TreeReading::entry_at))]
pub fn link(bytes: &[u8]) -> Result<(Option<ObjectId>, &[u8]), usize>
    ensures { Gives (λ read. (read.0, read.1.now)) result (link_at bytes.now) }
{
    let (mode, rest) = mode(bytes)?;
    let (_, rest) = file_name(rest)?;
    let (id, rest) = id(rest)?;
    let link = if mode == SUBMODULE { None } else { Some(id) };
    Ok((link, rest))
}

/// How many bytes are left from the first bad one on, where there is one.
pub fn fault(content: &[u8]) -> Option<usize>
    ensures { result ≡ result_err (tree_of content.now) }
{
    let mut rest = content;
    while !rest.is_empty() {
        match link(rest) {
            Ok((_, more)) => rest = more,
            Err(left) => return Some(left),
        }
    }
    None
}

/// The links of all entries, in order.
pub fn links(alloc: Global, content: &[u8]) -> Result<Ids, ReadFault>
    ensures { Finds result (tree_of content.now) }
{
    let mut ids = Ids::new(alloc);
    let mut rest = content;
    while !rest.is_empty() {
        let (link, more) = link(rest)?;
        if let Some(id) = link {
            ids.push(id)?;
        }
        rest = more;
    }
    Ok(ids)
}
