//! The names of objects.

ghost use Rattle.std.specs.Prelude.{◌≡◌};
ghost use Rattle.object_format.specs.Name.{kind_word, object_name};

use itoa::Buffer;
use px_base::{Hash, Kind, ObjectId};
use sha1::Sha1;

// The word that stands for a kind.
fn word_of(kind: Kind) -> &'static [u8]
    ensures { result.now ≡ kind_word kind }
{
    match kind {
        Kind::Commit => b"commit",
        Kind::Tree => b"tree",
        Kind::Blob => b"blob",
        Kind::Tag => b"tag",
    }
}

/// The name of an object: the SHA-1 (FIPS 180-4) of its kind, a space, the length of its content in
/// decimal, a NUL and the content, as git-hash-object(1) prints it. The content need not have the
/// form of its kind. Takes no memory.
#[tactic(auto, unfolding(crate::specs::Name::object_name))]
pub fn name_of(kind: Kind, content: &[u8]) -> ObjectId
    ensures { result ≡ object_name kind content.now }
{
    let mut digits = Buffer::new();
    let mut hasher = Sha1::new();
    hasher.update(word_of(kind));
    hasher.update(b" ");
    hasher.update(digits.format(content.len()).as_bytes());
    hasher.update(&[0]);
    hasher.update(content);
    Hash(hasher.finalize())
}
