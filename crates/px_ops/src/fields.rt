//! Words and fields, put at the end of a text.

ghost use Rattle.std.specs.Prelude.{◌≡◌, ◌++◌, OnOk, decimal};
ghost use Rattle.px_base.specs.Hash.{hash_text};

use itoa::Buffer;
use px_base::{Bytes, Hash};
use std::alloc::AllocError;

/// What putting a text at the end of another answers. Where memory wants, a part of it may stand
/// there.
pub type Added = Result<(), AllocError>;

/// Adds a word.
pub fn add(text: &mut Bytes, word: &[u8]) -> Added
    ensures { OnOk result (text.new ≡ text.old ++ word.now) }
{
    text.extend_from_slice(word)
}

/// Adds a word and a number in decimal digits.
pub fn add_number(text: &mut Bytes, word: &[u8], number: u64) -> Added
    ensures { OnOk result (text.new ≡ text.old ++ (word.now ++ decimal number)) }
{
    let mut digits = Buffer::new();
    add(text, word)?;
    add(text, digits.format(number).as_bytes())
}

/// Adds a word and the text of a hash.
pub fn add_hash(text: &mut Bytes, word: &[u8], hash: &Hash) -> Added
    ensures { OnOk result (text.new ≡ text.old ++ (word.now ++ hash_text hash.now)) }
{
    add(text, word)?;
    add(text, &hash.text())
}

/// Adds a word and another one.
pub fn add_name(text: &mut Bytes, word: &[u8], name: &[u8]) -> Added
    ensures { OnOk result (text.new ≡ text.old ++ (word.now ++ name.now)) }
{
    add(text, word)?;
    add(text, name)
}
