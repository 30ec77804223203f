//! Objects that come together, as those of a push.

ghost use Rattle.std.specs.Prelude.{◌≡◌, ◌⊎◌, ◌++◌, None, Some, IfOk, IfErr, OnOk};
ghost use Rattle.objstore.specs.Entries.{own_name};
ghost use Rattle.objstore.specs.Bundle.{object_fault, with_object};

use crate::store::Store;
use object_format::{check, name_of};
use px_base::{Object, ObjectId};
use std::alloc::{AllocError, Global};

/// Why a list of objects may not come to a store. The objects are tested in order, and each for these
/// causes in theirs.
#[derive(Clone, Copy, Debug, PartialEq, Eq)]
pub enum BundleFault {
    /// The content of an object breaks the form of its kind.
    BadObject {
        /// The place of the object in the list, from 0.
        index: usize,
        /// The first byte that breaks it, from 0, or the length where the content ends too early.
        at: usize,
    },
    /// An object of the store, or an earlier one of the list, has the name of an object of the list,
    /// and other bytes or another kind.
    Collision {
        /// The name.
        id: ObjectId,
    },
    /// Memory wanted.
    Memory,
}

impl From<AllocError> for BundleFault {
    ghost use Rattle.std.specs.Prelude.{◌≡◌};
    ghost use Rattle.objstore.specs.declared.bundles.BundleFault.TheVariants.{Memory};

    ghost from_gives = { λ _ e. e ≡ Memory };

    fn from(_: AllocError) -> BundleFault {
        BundleFault::Memory
    }
}

/// Puts a copy of the object at that index of a list to the earlier ones, where it may come to the
/// store with these in it, and gives its name.
pub(crate) fn bring(
    alloc: Global,
    store: &Store,
    extra: &mut Store,
    index: usize,
    object: &Object,
) -> Result<ObjectId, BundleFault>
    ensures ok { OnOk result (extra.new ≡ with_object extra.old object.now) }
    ensures value { IfOk result (λ id. id ≡ own_name object.now) }
    ensures accepted { OnOk result (object_fault (store.now ++ extra.old) index object.now ≡ None) }
    ensures refused { IfErr result (λ e. (e ≡ BundleFault.Memory)
        ⊎ (object_fault (store.now ++ extra.old) index object.now ≡ Some e)) }
{
    if let Some(at) = check(object.kind(), object.content()) {
        return Err(BundleFault::BadObject { index, at });
    }
    let id = name_of(object.kind(), object.content());
    if let Some(other) = store.find(&id, extra) {
        if !other.is_same(object) {
            return Err(BundleFault::Collision { id });
        }
    }
    extra.set(alloc, id, object)?;
    Ok(id)
}
