//! A list of updates that is checked and ready to be done.

ghost use Rattle.std.specs.Prelude.{◌≡◌, ◌⊎◌, None, Some, IfOk, IfErr, OnOk};
ghost use Rattle.px_base.specs.RefList.{IsRefList};
ghost use Rattle.refstore.specs.Hook.{vote_on};
ghost use Rattle.refstore.specs.Updates.{after, refusal_of, Fits};

use crate::hook::vote_of;
use crate::refs::Refs;
use px_base::{Hash, ObjectId, RefName, Update};
use std::alloc::{AllocError, Global};
use std::marker::Model;

/// Why a list of updates may not be done, in the order in which the causes are tested. `Void`, `Twice`
/// and `Stale` are tested of each update in order, before any conflict is.
#[derive(Debug, Drop, PartialEq, Eq)]
pub enum RefRefusal {
    /// The list is empty.
    Empty,
    /// Both objects of an update are zero.
    Void {
        /// The name.
        name: RefName,
    },
    /// An update names what an earlier one does.
    Twice {
        /// The name.
        name: RefName,
    },
    /// The old object of an update is not what the reference names.
    Stale {
        /// The name.
        name: RefName,
        /// What the reference names, which is the zero name where it does not exist.
        have: ObjectId,
    },
    /// Once all updates were done, a name of the list would be in conflict with another reference.
    Conflict {
        /// The first such name of the list.
        name: RefName,
        /// The least name that it is in conflict with.
        with: RefName,
    },
    /// Once all updates were done, there would be more than `MAX_REFS` references.
    TooManyRefs,
    /// Memory wanted.
    Memory,
}

impl From<AllocError> for RefRefusal {
    ghost use Rattle.std.specs.Prelude.{◌≡◌};
    ghost use Rattle.refstore.specs.declared.prepared.RefRefusal.TheVariants.{Memory};

    ghost from_gives = { λ _ e. e ≡ Memory };

    fn from(_: AllocError) -> RefRefusal {
        RefRefusal::Memory
    }
}

/// A list of updates that may be done: the references as they will be, all of them, and the vote on
/// the list.
#[derive(Drop)]
pub struct Prepared {
    refs: Refs,
    vote: Hash,
}

impl Model for Prepared {
    ghost use Rattle.refstore.specs.Prepared.{PreparedList};

    ghost Value = { PreparedList };

    ghost view = { λ p. record { refs = p.refs; vote = p.vote } };
}

impl Prepared {
    /// Prepares a list of updates on these references, which stay as they are.
    pub fn new(alloc: Global, refs: &Refs, updates: &[Update]) -> Result<Prepared, RefRefusal>
        ensures map { IfOk result (λ prepared. prepared.refs ≡ after refs.now updates.now) }
        ensures vote { IfOk result (λ prepared. prepared.vote ≡ vote_on updates.now) }
        ensures accepted { OnOk result (Fits updates.now refs.now) }
        ensures list { OnOk result (IsRefList refs.now) }
        ensures refused { IfErr result (λ e. (e ≡ RefRefusal.Memory)
            ⊎ (refusal_of refs.now updates.now ≡ Some e)) }
    {
        refs.check(alloc, updates)?;
        let map = refs.map().updated(alloc, updates)?;
        let _names = map.len();
        Ok(Prepared {
            refs: Refs::of_map(map),
            vote: vote_of(updates),
        })
    }

    /// The vote on the list. Takes no memory.
    pub fn vote(&self) -> Hash
        ensures { result ≡ self.now.vote }
    {
        self.vote
    }

    /// The references as they will be.
    pub fn refs(&self) -> &Refs
        ensures { result.now ≡ self.now.refs }
    {
        &self.refs
    }

    /// Does the updates: the references become those that were prepared. Takes no memory, and cannot
    /// be refused.
    pub fn commit(self, refs: &mut Refs)
        ensures { refs.new ≡ self.refs }
    {
        *refs = self.refs;
    }

    /// Does none of the updates. Takes no memory, and cannot be refused.
    pub fn abort(self) {}
}
