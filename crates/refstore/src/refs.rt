//! The references of a repository.

ghost use Rattle.std.specs.Prelude.{◌≡◌, ◌⊎◌, ◌↔◌, [], ◌∷◌, length, false, IfOk, IfErr, IsTrue, OnOk, OnErr, Some, None};
ghost use Rattle.px_base.specs.Hash.{is_zero};
ghost use Rattle.px_base.specs.RefList.{IsRefList, ref_at};
ghost use Rattle.refstore.specs.RefMap.{IsRefMap};
ghost use Rattle.refstore.specs.Updates.{Fits, after, creation, least_conflict, refusal_of};

use crate::checks::{check_conflicts, check_each};
use crate::conflict::conflict_in;
use crate::planned::Planned;
use crate::prepared::RefRefusal;
use crate::ref_map::RefMap;
use px_base::{MAX_REFS, ObjectId, RefList, RefName, Update};
use std::alloc::{AllocError, Global};
use std::marker::Model;

/// The references of a repository by their names, as those of a `RefList`: at most `MAX_REFS`, no two
/// in conflict, and none that names the zero name. A look-up takes logarithmic time.
#[derive(Drop)]
pub struct Refs {
    map: RefMap,
}

impl Model for Refs {
    ghost use Rattle.px_base.specs.RefList.{References, IsRefList};

    ghost Value = { References };

    ghost view = { λ r. r.map };

    ghost invariant = { λ r. IsRefList r.map };
}

impl Refs {
    /// No references. It takes no memory yet.
    pub fn new(alloc: Global) -> Refs
        ensures { result ≡ [] }
    {
        Refs {
            map: RefMap::new(alloc),
        }
    }

    /// The references of a list, with copies of the names.
    pub fn of_list(alloc: Global, list: &RefList) -> Result<Refs, AllocError>
        ensures { IfOk result (λ refs. refs ≡ list.now) }
    {
        let pairs = list.as_slice();
        let mut map = RefMap::new(alloc);
        for (name, id) in pairs {
            map.set(alloc, name, *id)?;
        }
        Ok(Refs { map })
    }

    /// The references of a map that a repository may have.
    pub fn of_map(map: RefMap) -> Refs
        requires { IsRefList map }
        ensures { result ≡ map }
    {
        Refs { map }
    }

    /// The map of them, to be changed.
    pub fn into_map(self) -> RefMap
        ensures value { result ≡ self }
        ensures list { IsRefList self }
    {
        self.map
    }

    // Their map.
    pub(crate) fn map(&self) -> &RefMap
        ensures value { result.now ≡ self.now }
        ensures list { IsRefList self.now }
    {
        &self.map
    }

    /// How many there are.
    pub fn len(&self) -> usize
        ensures len { result ≡ length self.now }
        ensures list { IsRefList self.now }
    {
        self.map.len()
    }

    /// Whether there is none.
    pub fn is_empty(&self) -> bool
        ensures { IsTrue result ↔ (self.now ≡ []) }
    {
        self.map.len() == 0
    }

    /// The object that a reference names, where it exists. Takes no memory.
    pub fn get(&self, name: &RefName) -> Option<ObjectId>
        ensures value { result ≡ ref_at self.now name.now }
        ensures list { IsRefList self.now }
    {
        self.map.get(name)
    }

    /// All of them, with copies of the names, in the order of the names.
    pub fn list(&self, alloc: Global) -> Result<RefList, AllocError>
        ensures { IfOk result (λ list. list ≡ self.now) }
    {
        self.map.list(alloc)
    }

    /// Whether a list of updates may be done, which is found by look-ups: the time does not grow with
    /// the references but by them.
    pub fn check(&self, alloc: Global, updates: &[Update]) -> Result<(), RefRefusal>
        ensures accepted { OnOk result (Fits updates.now self.now) }
        ensures list { OnOk result (IsRefList self.now) }
        ensures refused { IfErr result (λ e. (e ≡ RefRefusal.Memory)
            ⊎ (refusal_of self.now updates.now ≡ Some e)) }
    {
        if updates.is_empty() {
            return Err(RefRefusal::Empty);
        }
        check_each(alloc, self, updates)?;
        let mut planned = Planned::of(alloc, self.map());
        planned.update_all(alloc, updates)?;
        check_conflicts(alloc, &planned, updates)?;
        if planned.len() > MAX_REFS {
            return Err(RefRefusal::TooManyRefs);
        }
        Ok(())
    }

    /// Creates a reference: what a list of this one creation does, done in place, so that the time does
    /// not grow with the references but by look-ups. A refusal leaves the references as they were. It is
    /// `Void` for the zero name, `Stale` where the name is there, `Conflict`, `TooManyRefs` or `Memory`.
    pub fn create(&mut self, alloc: Global, name: RefName, id: ObjectId) -> Result<(), RefRefusal>
        // There is this one more, and those before were such as a repository may have.
        ensures ok { OnOk result (self.new ≡ after self.old (creation name id ∷ [])) }
        ensures list { IsRefList self.old }

        // Each refusal comes exactly where the list of this creation has it.
        ensures accepted { OnOk result (Fits (creation name id ∷ []) self.old) }
        ensures refused { IfErr result (λ e. (e ≡ RefRefusal.Memory)
            ⊎ (refusal_of self.old (creation name id ∷ []) ≡ Some e)) }
        ensures err { OnErr result (self.new ≡ self.old) }
    {
        let stands = self.map.get(&name);
        if id.is_zero() {
            return Err(RefRefusal::Void { name });
        }
        match stands {
            Some(have) => Err(RefRefusal::Stale { name, have }),
            None => add(&mut self.map, alloc, name, id),
        }
    }
}

// Creates a reference that is not there, of an object that is not the zero name.
fn add(map: &mut RefMap, alloc: Global, name: RefName, id: ObjectId) -> Result<(), RefRefusal>
    requires map { IsRefMap map.old }
    requires some { is_zero id ≡ false }
    requires absent { ref_at map.old name ≡ None }
    ensures ok { OnOk result (map.new ≡ after map.old (creation name id ∷ [])) }
    ensures list { OnOk result (IsRefList map.old → IsRefList map.new) }
    ensures accepted { OnOk result (Fits (creation name id ∷ []) map.old) }
    ensures refused { IfErr result (λ e. (e ≡ RefRefusal.Memory)
        ⊎ (refusal_of map.old (creation name id ∷ []) ≡ Some e)) }
    ensures err { OnErr result (map.new ≡ map.old) }
{
    match conflict_in(alloc, map, &name)? {
        Some(with) => Err(RefRefusal::Conflict { name, with }),
        None => add_apart(map, alloc, &name, id),
    }
}

// Creates such a reference, where it is in conflict with none.
fn add_apart(
    map: &mut RefMap,
    alloc: Global,
    name: &RefName,
    id: ObjectId,
) -> Result<(), RefRefusal>
    requires some { is_zero id ≡ false }
    requires absent { ref_at map.old name.now ≡ None }
    requires apart { least_conflict map.old name.now ≡ None }
    ensures ok { OnOk result (map.new ≡ after map.old (creation name.now id ∷ [])) }
    ensures list { OnOk result (IsRefList map.old → IsRefList map.new) }
    ensures accepted { OnOk result (Fits (creation name.now id ∷ []) map.old) }
    ensures refused { IfErr result (λ e. (e ≡ RefRefusal.Memory)
        ⊎ (refusal_of map.old (creation name.now id ∷ []) ≡ Some e)) }
    ensures err { OnErr result (map.new ≡ map.old) }
{
    if map.len() >= MAX_REFS {
        return Err(RefRefusal::TooManyRefs);
    }
    map.set(alloc, name, id)?;
    Ok(())
}
