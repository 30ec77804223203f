//! Lists of references.

ghost use Rattle.std.specs.Prelude.{◌≡◌, ◌↔◌, [], ◌∷◌, ◌++◌, length, slice_get, IsTrue, OnOk, OnErr};
ghost use Rattle.std.specs.Option.{option_copied};
ghost use Rattle.px_base.specs.RefList.{HasMost, IsRefList};

use crate::{Items, ObjectId, RefName};
use std::alloc::{AllocError, Global};
use std::marker::Model;

/// How many references a repository may have.
pub const MAX_REFS: usize = 32_768;

/// The references of a repository: at most `MAX_REFS` names with the object of each, which is not the
/// zero name. The names ascend in the order of their bytes, and no two are in conflict, which is one
/// being the other followed by a slash and more.
#[derive(Drop)]
pub struct RefList {
    pairs: Items<(RefName, ObjectId)>,
}

impl Model for RefList {
    ghost use Rattle.px_base.specs.RefList.{References, IsRefList};

    ghost Value = { References };

    ghost view = { λ l. l.pairs };

    ghost invariant = { λ l. IsRefList l.pairs };
}

impl RefList {
    /// The empty list. It takes no memory yet.
    pub fn new(alloc: Global) -> RefList
        ensures { result ≡ [] }
    {
        RefList {
            pairs: Items::new(alloc),
        }
    }

    /// Adds a reference at the end, where it has to fit. Where memory wants, the list stays.
    pub fn push(&mut self, name: RefName, id: ObjectId) -> Result<(), AllocError>
        requires { IsRefList (self.old ++ (name, id) ∷ []) }
        ensures ok { OnOk result (self.new ≡ self.old ++ (name, id) ∷ []) }
        ensures err { OnErr result (self.new ≡ self.old) }
    {
        self.pairs.push((name, id))?;
        Ok(())
    }

    /// How many references there are.
    pub fn len(&self) -> usize
        ensures { result ≡ length self.now }
    {
        self.pairs.len()
    }

    /// Whether there is none.
    pub fn is_empty(&self) -> bool
        ensures { IsTrue result ↔ (self.now ≡ []) }
    {
        self.pairs.is_empty()
    }

    /// Whether no further reference fits.
    pub fn is_full(&self) -> bool
        ensures { IsTrue result ↔ HasMost self.now }
    {
        self.pairs.len() >= MAX_REFS
    }

    /// The reference at a place, from 0, or `None` past the end.
    pub fn get(&self, at: usize) -> Option<&(RefName, ObjectId)>
        ensures { option_copied result ≡ slice_get self.now at }
    {
        self.pairs.get(at)
    }

    /// The references as a slice.
    pub fn as_slice(&self) -> &[(RefName, ObjectId)]
        ensures value { result.now ≡ self.now }
        ensures list { IsRefList self.now }
    {
        self.pairs.as_slice()
    }
}
