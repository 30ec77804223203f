//! The relative paths of repositories.

ghost use Rattle.std.specs.Prelude.{◌≡◌, ◌⊎◌, ◌≤◌, ℕ, IfOk, IfErr, IfNone, IfSome, length};
ghost use Rattle.px_base.specs.FirstPlace.{IsFirst};
ghost use Rattle.px_base.specs.RepoPath.{IsBadByteAt, IsBadComponentAt, IsFirstBad, IsRepoPath};
ghost use Rattle.px_base.specs.RepoPath.{begins, is_bad_component, is_over, is_path_byte};

use crate::{Bytes, NameFault};
use std::alloc::{AllocError, Global};
use std::marker::Model;

/// The greatest length of a repository's path, in bytes.
const MAX_BYTES: usize = 255;

/// The path of a repository below its storage: 1 to 255 bytes of `A-Z a-z 0-9 . _ - @ + /`, in
/// components with a `/` between each two. No component is empty, `.` or `..`.
#[derive(Drop, Debug, PartialEq, Eq, PartialOrd, Ord)]
pub struct RepoPath {
    bytes: Bytes,
}

impl Model for RepoPath {
    ghost use Rattle.std.specs.Prelude.{ℕ, List};
    ghost use Rattle.px_base.specs.RepoPath.{IsRepoPath};

    ghost Value = { List ℕ };

    ghost view = { λ p. p.bytes };

    ghost inverse = { λ bytes. record { bytes = bytes } };

    ghost invariant = { λ p. IsRepoPath p.bytes };
}

impl RepoPath {
    /// The path that a text is, which it copies, or its first bad place: that of a byte that no path
    /// has or that is one too many, or else that where the first bad component begins.
    pub fn read(alloc: Global, text: &[u8]) -> Result<RepoPath, NameFault>
        ensures ok { IfOk result (λ path. IsRepoPath text.now × (path ≡ text.now)) }
        ensures err { IfErr result (λ fault. (fault ≡ NameFault.Memory)
            ⊎ ((at : ℕ) × (fault ≡ NameFault.BadName at) × IsFirstBad text.now at)) }
    {
        if let Some(at) = first_bad_byte(text) {
            return Err(NameFault::BadName { at });
        }
        if let Some(at) = first_bad_component(text) {
            return Err(NameFault::BadName { at });
        }
        match Bytes::from_slice(alloc, text) {
            Ok(bytes) => Ok(RepoPath { bytes }),
            Err(_) => Err(NameFault::Memory),
        }
    }

    /// A copy of it.
    pub fn copy(&self, alloc: Global) -> Result<RepoPath, AllocError>
        ensures value { IfOk result (λ copied. copied ≡ self.now) }
        ensures path { IsRepoPath self.now }
    {
        let bytes = Bytes::from_slice(alloc, self.as_bytes())?;
        Ok(RepoPath { bytes })
    }

    /// The bytes of the path.
    pub fn as_bytes(&self) -> &[u8]
        ensures value { result.now ≡ self.now }
        ensures path { IsRepoPath self.now }
    {
        self.bytes.as_slice()
    }
}

fn is_path_byte(byte: u8) -> bool
    ensures { result ≡ is_path_byte byte }
{
    matches!(
        byte,
        b'A'..=b'Z' | b'a'..=b'z' | b'0'..=b'9' | b'.' | b'_' | b'-' | b'@' | b'+' | b'/'
    )
}

// The first byte that no path has, or that is one too many.
fn first_bad_byte(text: &[u8]) -> Option<usize>
    ensures some { IfSome result (IsFirst (IsBadByteAt text.now)) }
    ensures none { IfNone result ((k : ℕ) → ¬ (IsBadByteAt text.now k)) }
{
    for (at, byte) in text.iter().enumerate() {
        if at >= MAX_BYTES || !is_path_byte(*byte) {
            return Some(at);
        }
    }
    None
}

// Whether a component ends here.
fn is_over(bytes: &[u8]) -> bool
    ensures { result ≡ is_over bytes.now }
{
    matches!(bytes, [] | [b'/', ..])
}

// Whether the component that begins here is empty, `.` or `..`.
fn is_bad_component(bytes: &[u8]) -> bool
    ensures { result ≡ is_bad_component bytes.now }
{
    match bytes {
        [b'.', b'.', rest @ ..] => is_over(rest),
        [b'.', rest @ ..] => is_over(rest),
        _ => is_over(bytes),
    }
}

// Whether a component begins at the place.
fn begins(text: &[u8], at: usize) -> bool
    requires { at ≤ length text.now }
    ensures { result ≡ begins text.now at }
{
    at == 0 || text[at - 1] == b'/'
}

// Where the first bad component begins.
fn first_bad_component(text: &[u8]) -> Option<usize>
    ensures some { IfSome result (IsFirst (IsBadComponentAt text.now)) }
    ensures none { IfNone result ((k : ℕ) → ¬ (IsBadComponentAt text.now k)) }
{
    for at in 0..text.len() + 1 {
        if begins(text, at) && is_bad_component(&text[at..]) {
            return Some(at);
        }
    }
    None
}
