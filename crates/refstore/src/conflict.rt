//! Names that are in conflict: one is the other followed by a slash and more.

ghost use Rattle.std.specs.Prelude.{◌≡◌, ◌∷◌, ◌++◌, [], IfOk, MatchOption};
ghost use Rattle.refstore.specs.Conflicts.{IsLeastAbove, IsLeastUnder, NoneAbove, NoneUnder};
ghost use Rattle.refstore.specs.RefMap.{IsRefMap};
ghost use Rattle.refstore.specs.Updates.{least_conflict};

use crate::planned::Planned;
use crate::ref_map::RefMap;
use px_base::{Bytes, RefName};
use std::alloc::{AllocError, Global};

/// The least name of the map that is in conflict with this one. Those above it come before those
/// under it, and of those above it the shortest comes first.
pub fn least_conflict(
    alloc: Global,
    map: &Planned,
    name: &RefName,
) -> Result<Option<RefName>, AllocError>
    requires { IsRefMap map.now }
    ensures { IfOk result (λ found. found ≡ least_conflict map.now name.now) }
{
    match least_above(alloc, map, name)? {
        Some(above) => Ok(Some(above)),
        None => least_under(alloc, map, name),
    }
}

/// The same among the names of a map as they are.
pub fn conflict_in(
    alloc: Global,
    map: &RefMap,
    name: &RefName,
) -> Result<Option<RefName>, AllocError>
    requires { IsRefMap map.now }
    ensures { IfOk result (λ found. found ≡ least_conflict map.now name.now) }
{
    least_conflict(alloc, &Planned::of(alloc, map), name)
}

// The least name that is above this one: each ends before one of its slashes.
fn least_above(alloc: Global, map: &Planned, name: &RefName) -> Result<Option<RefName>, AllocError>
    ensures { IfOk result (λ found. MatchOption found (NoneAbove map.now name.now)
        (λ above. IsLeastAbove map.now name.now above)) }
{
    let bytes = name.as_bytes();
    let mut front = Bytes::new(alloc);
    for byte in bytes {
        if *byte == b'/' && map.contains(&front) {
            return Ok(Some(RefName::of(front)));
        }
        front.push(*byte)?;
    }
    Ok(None)
}

// The bytes of the name, and a slash.
fn with_slash(alloc: Global, name: &RefName) -> Result<Bytes, AllocError>
    ensures { IfOk result (λ front. front ≡ name.now ++ 47 ∷ []) }
{
    let mut front = name.bytes().copy(alloc)?;
    front.push(b'/')?;
    Ok(front)
}

// The least name that is under this one. In the order of the names, those that begin with it and a
// slash stand together, and none stands between these two bytes and the first of them.
fn least_under(alloc: Global, map: &Planned, name: &RefName) -> Result<Option<RefName>, AllocError>
    ensures { IfOk result (λ found. MatchOption found (NoneUnder map.now name.now)
        (λ under. IsLeastUnder map.now name.now under)) }
{
    let front = with_slash(alloc, name)?;
    let Some(found) = map.first_from(&front) else {
        return Ok(None);
    };
    if !found.as_slice().starts_with(front.as_slice()) {
        return Ok(None);
    }
    Ok(Some(RefName::of(found.copy(alloc)?)))
}
