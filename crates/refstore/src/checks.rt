//! Whether a list of updates may be done.

ghost use Rattle.std.specs.Prelude.{◌≡◌, ◌⊎◌, [], ◌∷◌, ◌++◌, ℕ, List, IfOk, IfErr, OnOk, None, Some, not};
ghost use Rattle.std.specs.BTreeSet.{contains};
ghost use Rattle.px_base.specs.RefList.{name_cmp};
ghost use Rattle.refstore.specs.RefMap.{IsRefMap};
ghost use Rattle.refstore.specs.Updates.{first_conflict, first_fault, is_among, update_conflict, update_fault};
ghost use Rattle.refstore.specs.Named.{Named};

use crate::conflict::least_conflict;
use crate::planned::Planned;
use crate::prepared::RefRefusal;
use crate::refs::Refs;
use px_base::{Hash, RefName, Update};
use std::alloc::{AllocError, Global};
use std::collections::BTreeSet;

/// Whether each update is one, names what no earlier one does, and has the old object that its
/// reference names.
pub fn check_each(alloc: Global, refs: &Refs, updates: &[Update]) -> Result<(), RefRefusal>
    ensures accepted { OnOk result (first_fault refs.now [] updates.now ≡ None) }
    ensures refused { IfErr result (λ e. (e ≡ RefRefusal.Memory)
        ⊎ (first_fault refs.now [] updates.now ≡ Some e)) }
{
    let mut names = BTreeSet::new(alloc);
    for update in updates {
        check_update(alloc, refs, &mut names, update)?;
    }
    Ok(())
}

// Whether the name is none of these, to which it is added.
fn is_new<'a>(names: &mut BTreeSet<&'a RefName>, name: &'a RefName) -> Result<bool, AllocError>
    ensures { IfOk result (λ new. (before : List (List ℕ)) → Named names.old before
        → (new ≡ not (is_among name.now before)) × Named names.new (before ++ name.now ∷ [])) }
{
    Ok(names.insert(name)?)
}

// Whether an update may be done behind those that name these names, to which its own is added.
fn check_update<'a>(
    alloc: Global,
    refs: &Refs,
    names: &mut BTreeSet<&'a RefName>,
    update: &'a Update,
) -> Result<(), RefRefusal>
    ensures names { OnOk result ((before : List (List ℕ)) → Named names.old before
        → Named names.new (before ++ update.now.name ∷ [])) }
    ensures accepted { OnOk result ((before : List (List ℕ)) → Named names.old before
        → update_fault refs.now before update.now ≡ None) }
    ensures refused { IfErr result (λ e. (e ≡ RefRefusal.Memory)
        ⊎ ((before : List (List ℕ)) → Named names.old before
        → update_fault refs.now before update.now ≡ Some e)) }
{
    if update.old.is_zero() && update.new.is_zero() {
        let name = update.name.copy(alloc)?;
        return Err(RefRefusal::Void { name });
    }
    if !is_new(names, &update.name)? {
        let name = update.name.copy(alloc)?;
        return Err(RefRefusal::Twice { name });
    }
    let have = refs.get(&update.name).unwrap_or(Hash::zero());
    if have != update.old {
        let name = update.name.copy(alloc)?;
        return Err(RefRefusal::Stale { name, have });
    }
    Ok(())
}

/// Whether no name of the updates that is in the map is in conflict with another one there.
pub fn check_conflicts(alloc: Global, map: &Planned, updates: &[Update]) -> Result<(), RefRefusal>
    requires { IsRefMap map.now }
    ensures accepted { OnOk result (first_conflict map.now updates.now ≡ None) }
    ensures refused { IfErr result (λ e. (e ≡ RefRefusal.Memory)
        ⊎ (first_conflict map.now updates.now ≡ Some e)) }
{
    for update in updates {
        check_conflict(alloc, map, update)?;
    }
    Ok(())
}

// Whether the name of an update, if it is in the map, is in conflict with none there.
fn check_conflict(alloc: Global, map: &Planned, update: &Update) -> Result<(), RefRefusal>
    requires { IsRefMap map.now }
    ensures accepted { OnOk result (update_conflict map.now update.now ≡ None) }
    ensures refused { IfErr result (λ e. (e ≡ RefRefusal.Memory)
        ⊎ (update_conflict map.now update.now ≡ Some e)) }
{
    if !map.contains(update.name.bytes()) {
        return Ok(());
    }
    let Some(with) = least_conflict(alloc, map, &update.name)? else {
        return Ok(());
    };
    let name = update.name.copy(alloc)?;
    Err(RefRefusal::Conflict { name, with })
}
