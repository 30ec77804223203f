//! The names of storages.

ghost use Rattle.std.specs.Prelude.{◌≡◌, ℕ, ◌<◌, ◌≤◌, IfOk, IfErr, length, take, drop, replicate};
ghost use Rattle.std.specs.List.{prefix_len};
ghost use Rattle.px_base.specs.StorageName.{IsStorageName, first_bad, is_name_byte};

use std::marker::Model;

/// The name of a storage, or of a virtual one: 1 to 64 bytes of `A-Z a-z 0-9 . _ -`. It lies in a fixed array, so that
/// it is copied freely.
#[derive(Clone, Copy, Debug, PartialEq, Eq)]
pub struct StorageName {
    bytes: [u8; 64],
    len: usize,
}

impl Model for StorageName {
    ghost use Rattle.std.specs.Prelude.{ℕ, List, take};

    ghost Value = { List ℕ };

    ghost use Rattle.px_base.specs.StorageName.Inside.{IsPadded, padded, padded-take};

    ghost view = { λ s. take s.len s.bytes };

    ghost invariant = { IsPadded };

    ghost inverse = { padded };

    ghost inverse_ok = { padded-take };
}

/// Why a text is no name, or no path.
#[derive(Clone, Copy, Debug, PartialEq, Eq)]
pub enum NameFault {
    /// The text is no name of its kind.
    BadName {
        /// The first bad place, from 0: that of a byte that may not stand there or lies past the
        /// greatest length, or the length of the text where it may not end there.
        at: usize,
    },
    /// Memory wanted. A name that lies in a fixed array never answers this.
    Memory,
}

impl StorageName {
    /// The name that a text is, or its first bad byte. Takes no memory, so that it never answers `Memory`.
    pub fn read(text: &[u8]) -> Result<StorageName, NameFault>
        ensures ok { IfOk result (λ name. IsStorageName text.now × (name ≡ text.now)) }
        ensures err { IfErr result (λ fault. ¬ (IsStorageName text.now)
            × (fault ≡ NameFault.BadName (first_bad text.now))) }
    {
        let good = allowed_len(text);
        if good < text.len() || good == 0 || good > 64 {
            return Err(NameFault::BadName { at: good.min(64) });
        }
        Ok(StorageName {
            bytes: array_of(text),
            len: good,
        })
    }

    /// The bytes of the name.
    pub fn as_bytes(&self) -> &[u8]
        ensures { result.now ≡ self.now }
    {
        &self.bytes[..self.len]
    }
}

fn is_allowed(byte: u8) -> bool
    ensures { result ≡ is_name_byte byte }
{
    matches!(byte, b'A'..=b'Z' | b'a'..=b'z' | b'0'..=b'9' | b'.' | b'_' | b'-')
}

// How many bytes stand before the first that is not allowed.
fn allowed_len(text: &[u8]) -> usize
    ensures { result ≡ prefix_len is_name_byte text.now }
{
    for (i, byte) in text.iter().enumerate() {
        if !is_allowed(*byte) {
            return i;
        }
    }
    text.len()
}

// The bytes in front, and zeros behind them.
fn array_of(text: &[u8]) -> [u8; 64]
    requires { length text.now ≤ 64 }
    ensures whole { length result ≡ 64 }
    ensures front { take (length text.now) result ≡ text.now }
    ensures zeros { drop (length text.now) result ≡ drop (length text.now) (replicate 64 0) }
{
    let mut bytes = [0; 64];
    for (i, byte) in text.iter().enumerate() {
        bytes[i] = *byte;
    }
    bytes
}
