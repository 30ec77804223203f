//! The links of objects, and the first bad byte of a broken one.

ghost use Rattle.std.specs.Prelude.{◌≡◌, ◌⊎◌, ◌++◌, ℕ, IfOk, IfErr, OnOk, None, Some};
ghost use Rattle.std.specs.Result.{result_err};
ghost use Rattle.object_format.specs.Links.{bad_byte, links_at, links_of};
ghost use Rattle.object_format.specs.Reading.{Finds, parents_of};

use crate::form::{line, tag};
use crate::read_fault::ReadFault;
use crate::tree;
use px_base::{Ids, Kind};
use std::alloc::{AllocError, Global};

/// Why the links of an object were not read.
#[derive(Clone, Copy, Debug, PartialEq, Eq)]
pub enum LinkFault {
    /// The content breaks the form of its kind.
    BadObject {
        /// The place of the first byte that breaks it, from 0, or the length of the content where
        /// it ends too early.
        at: usize,
    },
    /// Memory wanted.
    Memory,
}

// The lines of parents, for as long as the next bytes are one.
fn push_parents(ids: &mut Ids, bytes: &[u8]) -> Result<(), AllocError>
    ensures { OnOk result (ids.new ≡ ids.old ++ parents_of bytes.now) }
{
    let mut rest = bytes;
    while let Ok((parent, more)) = line(b"parent ", rest) {
        ids.push(parent)?;
        rest = more;
    }
    Ok(())
}

// The tree and the parents.
#[tactic(auto, unfolding(crate::specs::Links::links_at))]
fn commit_links(alloc: Global, content: &[u8]) -> Result<Ids, ReadFault>
    ensures { Finds result (links_at Kind.Commit content.now) }
{
    let (tree, rest) = line(b"tree ", content)?;
    let mut ids = Ids::new(alloc);
    ids.push(tree)?;
    push_parents(&mut ids, rest)?;
    Ok(ids)
}

// The object.
#[tactic(auto, unfolding(crate::specs::Links::links_at))]
fn tag_links(alloc: Global, content: &[u8]) -> Result<Ids, ReadFault>
    ensures { Finds result (links_at Kind.Tag content.now) }
{
    let (id, _) = tag(content)?;
    let mut ids = Ids::new(alloc);
    ids.push(id)?;
    Ok(ids)
}

#[tactic(auto, unfolding(crate::specs::Links::links_at))]
fn read(alloc: Global, kind: Kind, content: &[u8]) -> Result<Ids, ReadFault>
    ensures { Finds result (links_at kind content.now) }
{
    match kind {
        Kind::Commit => commit_links(alloc, content),
        Kind::Tree => tree::links(alloc, content),
        Kind::Blob => Ok(Ids::new(alloc)),
        Kind::Tag => tag_links(alloc, content),
    }
}

// How many bytes are left from the first bad one on, where there is one.
#[tactic(auto, unfolding(crate::specs::Links::links_at))]
fn fault(kind: Kind, content: &[u8]) -> Option<usize>
    ensures { result ≡ result_err (links_at kind content.now) }
{
    match kind {
        Kind::Commit => line(b"tree ", content).err(),
        Kind::Tree => tree::fault(content),
        Kind::Blob => None,
        Kind::Tag => tag(content).err(),
    }
}

/// The place of the first byte that breaks the form of the kind, from 0, or the length of the
/// content where it ends too early. `None` where the form is right. Takes no memory.
pub fn check(kind: Kind, content: &[u8]) -> Option<usize>
    ensures { result ≡ bad_byte kind content.now }
{
    match fault(kind, content) {
        Some(left) => Some(content.len() - left),
        None => None,
    }
}

/// The names that an object links to, in order: those of the entries of a tree, but for submodules;
/// the tree and the parents of a commit; the object of a tag; none of a blob. The content is read
/// once, from left to right.
///
/// Nothing is checked beyond the form: not what stands behind the lines of a commit or a tag, nor
/// the order of entries, nor what kind a linked object has.
pub fn links(alloc: Global, kind: Kind, content: &[u8]) -> Result<Ids, LinkFault>
    ensures ok { IfOk result (λ ids. (bad_byte kind content.now ≡ None)
        × (ids ≡ links_of kind content.now)) }
    ensures err { IfErr result (λ e. (e ≡ LinkFault.Memory) ⊎ ((at : ℕ)
        × (e ≡ LinkFault.BadObject at) × (bad_byte kind content.now ≡ Some at))) }
{
    match read(alloc, kind, content) {
        Ok(ids) => Ok(ids),
        Err(ReadFault::Left(left)) => Err(LinkFault::BadObject {
            at: content.len() - left,
        }),
        Err(ReadFault::Memory) => Err(LinkFault::Memory),
    }
}
