//! Laws of stores, of objects that come together, and of walks. A law is a function with nothing in
//! it: what it ensures is proved for all values.

ghost use Rattle.std.specs.Prelude.{◌≡◌, ℕ, List, [], map, slice_get, false, None, Some};
ghost use Rattle.std.specs.List.{Contains};
ghost use Rattle.px_base.specs.Object.{GitObject};
ghost use Rattle.px_base.specs.declared.hash.Hash.{Hash};
ghost use Rattle.objstore.specs.Bundle.{bundle_fault, with_objects};
ghost use Rattle.objstore.specs.Entries.{Entries, IsStore, is_among, object_at, object_in, own_name};
ghost use Rattle.objstore.specs.Reach.{Objects, IsClosed, IsReachable};
ghost use Rattle.objstore.specs.Reached.{AreReached};
ghost use Rattle.objstore.specs.Walk.{IsFirstMissing};

/// A law: a walk has one first id without an object. So `ClosedFault::Missing` can name no other.
pub fn the_first_missing_id_is_one()
    ensures { (objects : Objects) (tips : List Hash) (id other : Hash)
        → IsFirstMissing objects tips id → IsFirstMissing objects tips other → id ≡ other }
{}

/// A law: a store to which objects came that may come is a store. Each of them stands there under its
/// own name, each other id has what it had, and each id has what the store and the objects by themselves
/// have together. So what is closed over both is closed over the store with the objects.
pub fn each_object_that_comes_stands_under_its_name()
    ensures store { (store : Entries) (objects : List GitObject) → IsStore store
        → bundle_fault store 0 objects ≡ None → IsStore (with_objects store objects) }
    ensures listed { (store : Entries) (objects : List GitObject)
        → bundle_fault store 0 objects ≡ None
        → (at : ℕ) (object : GitObject) → slice_get objects at ≡ Some object
        → object_at (with_objects store objects) (own_name object) ≡ Some object }
    ensures others { (store : Entries) (objects : List GitObject) (id : Hash)
        → is_among id (map own_name objects) ≡ false
        → object_at (with_objects store objects) id ≡ object_at store id }
    ensures together { (store : Entries) (objects : List GitObject)
        → bundle_fault store 0 objects ≡ None → (id : Hash)
        → object_at (with_objects store objects) id
        ≡ object_in store (with_objects [] objects) id }
    ensures closed { (store : Entries) (objects : List GitObject) (tips : List Hash)
        → bundle_fault store 0 objects ≡ None
        → IsClosed (object_in store (with_objects [] objects)) tips
        → IsClosed (object_at (with_objects store objects)) tips }
{}

/// A law: what is reached from some ids is one list. It has the object of each reachable id that has one,
/// and no other object.
pub fn what_is_reached_is_one_list()
    ensures one { (objects : Objects) (tips : List Hash) (found other : List GitObject)
        → AreReached objects tips found → AreReached objects tips other → found ≡ other }
    ensures all { (objects : Objects) (tips : List Hash) (found : List GitObject)
        → AreReached objects tips found → (id : Hash) (object : GitObject)
        → IsReachable objects tips id → objects id ≡ Some object → Contains found object }
    ensures only { (objects : Objects) (tips : List Hash) (found : List GitObject)
        → AreReached objects tips found → (object : GitObject) → Contains found object
        → (id : Hash) × IsReachable objects tips id × (objects id ≡ Some object) }
{}
