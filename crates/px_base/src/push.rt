//! What a push brings to a repository.

ghost use Rattle.px_base.specs.Update.{AreUpdates, IsUpdate};

use crate::{Hash, Items, Object, RefName};

/// A reference to be changed, as a line of the reference-transaction hook's input names it
/// (githooks(5)). Where `old` is the zero name the reference must not exist: Git lets that also mean a
/// forced update. Where `new` is the zero name the reference is deleted. The two may be equal.
#[derive(Debug, Drop, PartialEq, Eq)]
pub struct Update {
    /// The object that the reference names before.
    pub old: Hash,
    /// The object that it is to name.
    pub new: Hash,
    /// The reference.
    pub name: RefName,
}

/// A list of updates, in the order of the push.
pub type Updates = Items<Update>;

/// A list of objects.
pub type Objects = Items<Object>;

/// A push: one reference transaction, and the objects that come with it.
#[derive(Drop)]
pub struct Push {
    /// What is to be changed.
    pub updates: Updates,
    /// The objects that the new names lead to, as far as they come with the push.
    pub objects: Objects,
}

/// Tells contracts what each value of a list of updates is: two hashes of 20 bytes, and the name of a
/// reference. The types keep it, and a proof knows it once the parts are read. Changes nothing, and
/// takes no memory.
pub fn are_updates(updates: &[Update])
    ensures { AreUpdates updates.now }
{
    for update in updates {
        is_update(update);
    }
}

// The same of one.
fn is_update(update: &Update)
    ensures { IsUpdate update.now }
{
    let _old = update.old.as_bytes();
    let _new = update.new.as_bytes();
    let _name = update.name.as_bytes();
}
