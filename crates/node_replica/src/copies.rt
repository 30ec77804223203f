//! A copy of what a push changes, and the objects that it gives to names.

ghost use Rattle.std.specs.Prelude.{◌≡◌, IfOk, OnOk};
ghost use Rattle.std.specs.List.{AllByRecursion};
ghost use Rattle.std.specs.Map.{values_of};
ghost use Rattle.px_base.specs.Hash.{IsHash};
ghost use Rattle.node_calls.specs.Calls.{new_tips};
ghost use Rattle.px_base.specs.Update.{AreUpdates};

use px_base::{Ids, ObjectId, RefName, Update, Updates, are_updates};
use std::alloc::{AllocError, Global};

/// A copy of the updates.
pub(crate) fn copied_updates(alloc: Global, updates: &[Update]) -> Result<Updates, AllocError>
    ensures value { IfOk result (λ copied. copied ≡ updates.now) }
    ensures ids { OnOk result (AreUpdates updates.now) }
{
    are_updates(updates);
    let mut copied = Updates::new(alloc);
    for update in updates {
        copied.push(Update {
            old: update.old,
            new: update.new,
            name: update.name.copy(alloc)?,
        })?;
    }
    Ok(copied)
}

/// The objects that the updates give to names, in their order; a deletion gives none.
pub(crate) fn tips_of(alloc: Global, updates: &[Update]) -> Result<Ids, AllocError>
    ensures { IfOk result (λ tips. tips ≡ new_tips updates.now) }
{
    let mut tips = Ids::new(alloc);
    for update in updates {
        if !update.new.is_zero() {
            tips.push(update.new)?;
        }
    }
    Ok(tips)
}

/// The objects that references name, in the order of the names.
pub(crate) fn named_by(alloc: Global, refs: &[(RefName, ObjectId)]) -> Result<Ids, AllocError>
    ensures value { IfOk result (λ ids. ids ≡ values_of refs.now) }
    ensures ids { OnOk result (AllByRecursion IsHash (values_of refs.now)) }
{
    let mut ids = Ids::new(alloc);
    for (_, id) in refs {
        let _bytes = id.as_bytes();
        ids.push(*id)?;
    }
    Ok(ids)
}
