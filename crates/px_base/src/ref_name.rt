//! The names of references.

ghost use Rattle.std.specs.Prelude.{◌≡◌, ◌⊎◌, ℕ, IfOk, IfErr, IfNone, IfSome};
ghost use Rattle.px_base.specs.RefName.{IsBadAt, IsRefName, follows_badly, is_bad_byte};
ghost use Rattle.px_base.specs.FirstPlace.{IsFirst};
ghost use Rattle.px_base.specs.RefName.{is_bad_end, is_forbidden, is_misplaced};

use crate::{Bytes, NameFault};
use std::alloc::{AllocError, Global};
use std::marker::Model;

/// The greatest length of the name of a reference, in bytes.
const MAX_BYTES: usize = 255;

/// What each name of a reference begins with.
const PREFIX: [u8; 5] = *b"refs/";

/// The full name of a reference, after git-check-ref-format(1): 6 to 255 bytes that begin with
/// `refs/`. No byte is a space, a control byte, one of `~ ^ : ? * [ \` or above ASCII. No component,
/// which a `/` ends, is empty or ends with `.lock`, and none begins with `.`; no `..` and no `@{`
/// stands in it, and it does not end with `.`.
#[derive(Drop, Debug, PartialEq, Eq, PartialOrd, Ord)]
pub struct RefName {
    bytes: Bytes,
}

impl Model for RefName {
    ghost use Rattle.std.specs.Prelude.{ℕ, List};
    ghost use Rattle.px_base.specs.RefName.{IsRefName};

    ghost Value = { List ℕ };

    ghost view = { λ n. n.bytes };

    ghost inverse = { λ bytes. record { bytes = bytes } };

    ghost invariant = { λ n. IsRefName n.bytes };
}

impl RefName {
    /// The name that a text is, which it copies, or the first bad place: that of a byte that may not
    /// stand behind those before it, or the length where the text is too short or may not end so.
    pub fn read(alloc: Global, text: &[u8]) -> Result<RefName, NameFault>
        ensures ok { IfOk result (λ name. IsRefName text.now × (name ≡ text.now)) }
        ensures err { IfErr result (λ fault. (fault ≡ NameFault.Memory)
            ⊎ ((at : ℕ) × (fault ≡ NameFault.BadName at) × IsFirst (IsBadAt text.now) at)) }
    {
        if let Some(at) = first_bad(text) {
            return Err(NameFault::BadName { at });
        }
        match Bytes::from_slice(alloc, text) {
            Ok(bytes) => Ok(RefName { bytes }),
            Err(_) => Err(NameFault::Memory),
        }
    }

    /// The name that these bytes are, as the caller knows that they are one.
    pub fn of(bytes: Bytes) -> RefName
        requires { IsRefName bytes }
        ensures { result ≡ bytes }
    {
        RefName { bytes }
    }

    /// A copy of it.
    pub fn copy(&self, alloc: Global) -> Result<RefName, AllocError>
        ensures { IfOk result (λ copied. copied ≡ self.now) }
    {
        let bytes = Bytes::from_slice(alloc, self.as_bytes())?;
        Ok(RefName { bytes })
    }

    /// The list of its bytes, as the key of a map.
    pub fn bytes(&self) -> &Bytes
        ensures value { result.now ≡ self.now }
        ensures name { IsRefName self.now }
    {
        &self.bytes
    }

    /// The bytes of the name.
    pub fn as_bytes(&self) -> &[u8]
        ensures value { result.now ≡ self.now }
        ensures name { IsRefName self.now }
    {
        self.bytes.as_slice()
    }
}

// No name has this byte.
fn is_forbidden(byte: u8) -> bool
    ensures { result ≡ is_forbidden byte }
{
    byte < 33 || byte > 126 || matches!(byte, b'~' | b'^' | b':' | b'?' | b'*' | b'[' | b'\\')
}

// Whether a byte at that place is none of the prefix, or one too many.
fn is_misplaced(at: usize, byte: u8) -> bool
    ensures { result ≡ is_misplaced at byte }
{
    match PREFIX.get(at) {
        Some(wanted) => byte != *wanted,
        None => at >= MAX_BYTES,
    }
}

// Whether a slash, a dot or a brace may not stand behind those bytes.
fn follows_badly(before: &[u8], byte: u8) -> bool
    ensures { result ≡ follows_badly before.now byte }
{
    match byte {
        b'/' => before.ends_with(b"/") || before.ends_with(b".lock"),
        b'.' => before.ends_with(b"/") || before.ends_with(b"."),
        b'{' => before.ends_with(b"@"),
        _ => false,
    }
}

// Whether a byte may not stand behind those before it.
fn is_bad_byte(before: &[u8], byte: u8) -> bool
    ensures { result ≡ is_bad_byte before.now byte }
{
    is_misplaced(before.len(), byte) || is_forbidden(byte) || follows_badly(before, byte)
}

// Whether a name may not end so.
fn is_bad_end(text: &[u8]) -> bool
    ensures { result ≡ is_bad_end text.now }
{
    text.len() < 6 || text.ends_with(b"/") || text.ends_with(b".") || text.ends_with(b".lock")
}

// The first bad place.
fn first_bad(text: &[u8]) -> Option<usize>
    ensures some { IfSome result (IsFirst (IsBadAt text.now)) }
    ensures none { IfNone result (IsRefName text.now) }
{
    for (at, byte) in text.iter().enumerate() {
        if is_bad_byte(&text[..at], *byte) {
            return Some(at);
        }
    }
    if is_bad_end(text) {
        Some(text.len())
    } else {
        None
    }
}
