//! A Git object, with a limit on its content.

ghost use Rattle.std.specs.Prelude.{◌≡◌, ◌↔◌, IfOk, IfSome, IsSome, IsTrue};
ghost use Rattle.px_base.specs.Object.{IsSmall};

use crate::{Bytes, Kind};
use std::alloc::{AllocError, Global};
use std::marker::Model;

/// The greatest content of an object, in bytes.
pub const MAX_CONTENT_BYTES: usize = 8_388_608;

/// A Git object: its kind, and its content without the header that Git hashes in front of it
/// (git-hash-object(1)). The content has at most `MAX_CONTENT_BYTES` bytes.
#[derive(Drop)]
pub struct Object {
    kind: Kind,
    content: Bytes,
}

impl Model for Object {
    ghost use Rattle.px_base.specs.Object.{GitObject, IsSmall};

    ghost Value = { GitObject };

    ghost view = { λ a. record { kind = a.kind; content = a.content } };

    ghost invariant = { λ a. IsSmall a.content };
}

impl Object {
    /// The object of that kind and content, or `None` where the content is too large.
    pub fn new(kind: Kind, content: Bytes) -> Option<Object>
        ensures made { IsSome result ↔ IsSmall content }
        ensures value { IfSome result (λ o. (o.kind ≡ kind) × (o.content ≡ content)) }
    {
        if content.len() > MAX_CONTENT_BYTES {
            return None;
        }
        Some(Object { kind, content })
    }

    /// What it is.
    pub fn kind(&self) -> Kind
        ensures { result ≡ self.now.kind }
    {
        self.kind
    }

    /// Its content.
    pub fn content(&self) -> &[u8]
        ensures value { result.now ≡ self.now.content }
        ensures small { IsSmall self.now.content }
    {
        self.content.as_slice()
    }

    /// A copy of it.
    pub fn copy(&self, alloc: Global) -> Result<Object, AllocError>
        ensures { IfOk result (λ o. o ≡ self.now) }
    {
        let content = Bytes::from_slice(alloc, self.content.as_slice())?;
        Ok(Object {
            kind: self.kind,
            content,
        })
    }

    /// Whether the other has the same kind and the same content.
    pub fn is_same(&self, other: &Object) -> bool
        ensures { IsTrue result ↔ (self.now ≡ other.now) }
    {
        self.kind == other.kind && self.content.as_slice() == other.content.as_slice()
    }
}
