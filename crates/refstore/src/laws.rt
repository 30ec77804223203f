//! What is true of every list of updates. A law is a function with nothing in it: what it ensures is
//! proved for all values.

ghost use Rattle.std.specs.Prelude.{◌≡◌, ℕ, List, slice_get, false, Some};
ghost use Rattle.px_base.specs.RefList.{IsRefList, References, ref_at};
ghost use Rattle.px_base.specs.declared.push.Update.{Update};
ghost use Rattle.px_base.specs.Update.{AreUpdates};
ghost use Rattle.refstore.specs.Hook.{text_of};
ghost use Rattle.refstore.specs.Updates.{Fits, after, given, is_among, names_of};

/// The hook text determines the list: two lists of updates that have one text are one list.
pub fn two_lists_of_one_text_are_one()
    ensures { (updates others : List Update) → AreUpdates updates → AreUpdates others
        → text_of updates ≡ text_of others → updates ≡ others }
{}

/// After a list of updates that may be done, each name of the list has what the list gives it, which
/// is nothing where it takes the name away, and each other name has what it had.
pub fn each_name_is_set_or_taken_away()
    ensures listed { (refs : References) (updates : List Update) → IsRefList refs
        → Fits updates refs → (at : ℕ) (update : Update) → slice_get updates at ≡ Some update
        → ref_at (after refs updates) update.name ≡ given update }
    ensures others { (refs : References) (updates : List Update) → IsRefList refs
        → (name : List ℕ) → is_among name (names_of updates) ≡ false
        → ref_at (after refs updates) name ≡ ref_at refs name }
{}
