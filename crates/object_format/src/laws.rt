//! What is true of every content. A law is a function with nothing in it: what it ensures is proved
//! for all values.

ghost use Rattle.std.specs.Prelude.{◌≡◌, ◌↔◌, ℕ, List, None, Some};
ghost use Rattle.px_base.specs.declared.hash.Hash.{Hash};
ghost use Rattle.px_base.specs.declared.kind.Kind.{Kind};
ghost use Rattle.object_format.specs.Grammar.{IsFirstBad, Spells};
ghost use Rattle.object_format.specs.Links.{bad_byte, links_of};

/// What is read of a content is what it spells, and what it spells is read: it has the form of its
/// kind exactly where no byte of it is bad, and it spells its links and no others.
pub fn what_is_read_is_spelled()
    ensures { (kind : Kind) (ids : List Hash) (content : List ℕ) → (Spells kind ids content
        ↔ ((bad_byte kind content ≡ None) × (links_of kind content ≡ ids))) }
{}

/// A broken content is refused at its first bad byte: what stands before it goes on to a content of
/// the form, and with it nothing does.
pub fn a_fault_is_the_first_bad_byte()
    ensures { (kind : Kind) (content : List ℕ) (at : ℕ) → ((bad_byte kind content ≡ Some at)
        ↔ IsFirstBad kind content at) }
{}
