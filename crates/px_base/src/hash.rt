//! SHA-1 digests, and their text.

ghost use Rattle.std.specs.Prelude.{◌≡◌, ℕ, List, IfSome, IfNone};
ghost use Rattle.std.specs.List.{list_all};
ghost use Rattle.px_base.specs.Hash.{hash_of, hash_text, is_hex_digit, is_zero, zero_hash, IsHash, IsHashText};

/// A SHA-1 digest (FIPS 180-4). Votes, and the names of Git's objects, are such digests.
#[derive(Clone, Copy, Debug, PartialEq, Eq, PartialOrd, Ord)]
pub struct Hash(pub [u8; 20]);

/// The name of a Git object, which is the SHA-1 of its kind, its length and its content
/// (git-hash-object(1)).
pub type ObjectId = Hash;

/// Whether the byte is a hexadecimal digit in lower case.
pub fn is_hex_digit(byte: u8) -> bool
    ensures { result ≡ is_hex_digit byte }
{
    matches!(byte, b'0'..=b'9' | b'a'..=b'f')
}

// Whether each byte is such a digit. The loop goes on past one that is none, so that it can take many bytes at once.
fn has_digits_alone(text: &[u8]) -> bool
    ensures { result ≡ list_all is_hex_digit text.now }
{
    let mut alone = true;
    for byte in text {
        alone &= is_hex_digit(*byte);
    }
    alone
}

impl Hash {
    /// The zero name, 40 zeros, which no object has. In an update it stands for no object
    /// (githooks(5)).
    pub fn zero() -> Hash
        ensures { result ≡ zero_hash }
    {
        Hash([0; 20])
    }

    /// Its bytes, of which there are 20.
    pub fn as_bytes(&self) -> &[u8]
        ensures value { result.now ≡ self.now.0 }
        ensures hash { IsHash self.now }
    {
        // A proof knows that there are 20 once one is read.
        let bytes: &[u8] = &self.0;
        let _first = bytes[0];
        bytes
    }

    /// Whether it is the zero name.
    pub fn is_zero(&self) -> bool
        ensures { result ≡ is_zero self.now }
    {
        *self == Hash::zero()
    }

    /// Reads 40 hexadecimal digits in lower case, which is how Git writes an object name. Takes no memory.
    pub fn read(text: &[u8]) -> Option<Hash>
        ensures value { IfSome result (λ hash. hash_text hash ≡ text.now) }
        ensures is { result ≡ hash_of text.now }
        ensures lawful { IfSome result (λ hash. IsHashText text.now) }
        ensures refused { IfNone result (¬ (IsHashText text.now)) }
    {
        if !has_digits_alone(text) {
            return None;
        }
        let mut bytes = [0; 20];
        match hex::decode_to_slice(text, &mut bytes) {
            Ok(()) => Some(Hash(bytes)),
            Err(_) => None,
        }
    }

    /// The 40 hexadecimal digits, in lower case. Takes no memory.
    pub fn text(&self) -> [u8; 40]
        ensures { result ≡ hash_text self.now }
    {
        let mut text = [0; 40];
        let _ = hex::encode_to_slice(self.as_bytes(), &mut text);
        text
    }
}

/// A law: the text of a hash reads back as that hash, and what reads as a hash is its text. So no hash has two texts,
/// and no text is that of two hashes.
pub fn a_hash_and_its_text_are_one()
    ensures read { (hash : Hash) → IsHash hash → hash_of (hash_text hash) ≡ Some hash }
    ensures written { (text : List ℕ) (hash : Hash) → hash_of text ≡ Some hash
        → IsHash hash × (hash_text hash ≡ text) }
{}
