//! What the first of some bytes are, and what stands behind them.

ghost use Rattle.std.specs.Prelude.{◌≡◌, ◌≢◌, ◌<◌, ◌^◌, ◌++◌, ◌∷◌, ℕ, Bool, List, length, IfNone, IfSome, Option};
ghost use Rattle.std.specs.Int.{to_be_bytes, w16};
ghost use Rattle.px_base.specs.Hash.{IsHash};
ghost use Rattle.px_base.specs.StorageName.{IsStorageName};
ghost use Rattle.px_base.specs.declared.hash.Hash.{Hash};
ghost use Rattle.px_base.specs.declared.kind.Kind.{Kind};
ghost use Rattle.px_fields.specs.Fields.{IsLease, flag, kind_code, optional_u32, optional_u64, text_bytes, u32_bytes, u64_bytes};

use px_base::{Hash, Kind, Lease, ObjectId, StorageName};

// The number that the first two bytes are.
fn u16_at(bytes: &[u8]) -> Option<(u16, &[u8])>
    ensures some { IfSome result (λ read. bytes.now ≡ to_be_bytes w16 read.0 ++ read.1.now) }
    ensures none { IfNone result (length bytes.now < 2) }
{
    match bytes.split_first_chunk::<2>() {
        Some((front, rest)) => Some((u16::from_be_bytes(*front), rest)),
        None => None,
    }
}

/// The number that the first four bytes are. There is none where there are fewer bytes.
pub fn u32_at(bytes: &[u8]) -> Option<(u32, &[u8])>
    ensures some { IfSome result (λ read. bytes.now ≡ u32_bytes read.0 ++ read.1.now) }
    ensures none { IfNone result (length bytes.now < 4) }
{
    match bytes.split_first_chunk::<4>() {
        Some((front, rest)) => Some((u32::from_be_bytes(*front), rest)),
        None => None,
    }
}

/// The number that the first eight bytes are. There is none where there are fewer bytes.
pub fn u64_at(bytes: &[u8]) -> Option<(u64, &[u8])>
    ensures some { IfSome result (λ read. bytes.now ≡ u64_bytes read.0 ++ read.1.now) }
    ensures none { IfNone result (length bytes.now < 8) }
{
    match bytes.split_first_chunk::<8>() {
        Some((front, rest)) => Some((u64::from_be_bytes(*front), rest)),
        None => None,
    }
}

/// The flag that the first byte is: 0 or 1.
pub fn flag_at(bytes: &[u8]) -> Option<(bool, &[u8])>
    ensures some { IfSome result (λ read. bytes.now ≡ flag read.0 ∷ read.1.now) }
    ensures none { IfNone result ((set : Bool) (rest : List ℕ) → bytes.now ≢ flag set ∷ rest) }
{
    match bytes {
        [0, rest @ ..] => Some((false, rest)),
        [1, rest @ ..] => Some((true, rest)),
        _ => None,
    }
}

/// The number of four bytes behind a flag that says whether there is one. Where the flag is 0, the
/// number is.
pub fn optional_u32_at(bytes: &[u8]) -> Option<(Option<u32>, &[u8])>
    ensures some { IfSome result (λ read. bytes.now ≡ optional_u32 read.0 ++ read.1.now) }
    ensures none { IfNone result ((number : Option ℕ) (rest : List ℕ)
        → bytes.now ≢ optional_u32 number ++ rest) }
{
    let Some((is_some, rest)) = flag_at(bytes) else {
        return None;
    };
    let Some((number, rest)) = u32_at(rest) else {
        return None;
    };
    if is_some {
        return Some((Some(number), rest));
    }
    if number != 0 {
        return None;
    }
    Some((None, rest))
}

/// The number of eight bytes behind a flag that says whether there is one. Where the flag is 0, the
/// number is.
pub fn optional_u64_at(bytes: &[u8]) -> Option<(Option<u64>, &[u8])>
    ensures some { IfSome result (λ read. bytes.now ≡ optional_u64 read.0 ++ read.1.now) }
    ensures none { IfNone result ((number : Option ℕ) (rest : List ℕ)
        → bytes.now ≢ optional_u64 number ++ rest) }
{
    let Some((is_some, rest)) = flag_at(bytes) else {
        return None;
    };
    let Some((number, rest)) = u64_at(rest) else {
        return None;
    };
    if is_some {
        return Some((Some(number), rest));
    }
    if number != 0 {
        return None;
    }
    Some((None, rest))
}

/// The lease that the first eight bytes are: any number but the last one.
pub fn lease_at(bytes: &[u8]) -> Option<(Lease, &[u8])>
    ensures some { IfSome result (λ read. bytes.now ≡ u64_bytes read.0 ++ read.1.now) }
    ensures fits { IfSome result (λ read. IsLease read.0) }
    ensures none { IfNone result ((lease : ℕ) (rest : List ℕ)
        → IsLease lease → bytes.now ≢ u64_bytes lease ++ rest) }
{
    let Some((number, rest)) = u64_at(bytes) else {
        return None;
    };
    match Lease::new(number) {
        Some(lease) => Some((lease, rest)),
        None => None,
    }
}

/// The lease behind a flag that says whether there is one. Where the flag is 0, so are the bytes of
/// the lease.
pub fn optional_lease_at(bytes: &[u8]) -> Option<(Option<Lease>, &[u8])>
    ensures some { IfSome result (λ read. bytes.now ≡ optional_u64 read.0 ++ read.1.now) }
    ensures fits { IfSome result (λ read. IfSome read.0 IsLease) }
    ensures none { IfNone result ((lease : Option ℕ) (rest : List ℕ)
        → IfSome lease IsLease → bytes.now ≢ optional_u64 lease ++ rest) }
{
    let Some((is_some, rest)) = flag_at(bytes) else {
        return None;
    };
    let Some((number, rest)) = u64_at(rest) else {
        return None;
    };
    if !is_some {
        if number != 0 {
            return None;
        }
        return Some((None, rest));
    }
    match Lease::new(number) {
        Some(lease) => Some((Some(lease), rest)),
        None => None,
    }
}

/// The kind that the first byte is: 1 for a commit, 2 for a tree, 3 for a blob and 4 for a tag.
pub fn kind_at(bytes: &[u8]) -> Option<(Kind, &[u8])>
    ensures some { IfSome result (λ read. bytes.now ≡ kind_code read.0 ∷ read.1.now) }
    ensures none { IfNone result ((kind : Kind) (rest : List ℕ)
        → bytes.now ≢ kind_code kind ∷ rest) }
{
    match bytes {
        [1, rest @ ..] => Some((Kind::Commit, rest)),
        [2, rest @ ..] => Some((Kind::Tree, rest)),
        [3, rest @ ..] => Some((Kind::Blob, rest)),
        [4, rest @ ..] => Some((Kind::Tag, rest)),
        _ => None,
    }
}

/// The object name that the first 20 bytes are. There is none where there are fewer bytes.
pub fn id_at(bytes: &[u8]) -> Option<(ObjectId, &[u8])>
    ensures some { IfSome result (λ read. bytes.now ≡ read.0.0 ++ read.1.now) }
    ensures hash { IfSome result (λ read. IsHash read.0) }
    ensures none { IfNone result (length bytes.now < 20) }
{
    match bytes.split_first_chunk::<20>() {
        Some((front, rest)) => {
            // A proof knows that it is a hash once its bytes are read.
            let id = Hash(*front);
            let _bytes = id.as_bytes();
            Some((id, rest))
        }
        None => None,
    }
}

/// The text whose length the first two bytes are, and which follows them.
pub fn text_at(bytes: &[u8]) -> Option<(&[u8], &[u8])>
    ensures some { IfSome result (λ read. bytes.now ≡ text_bytes read.0.now ++ read.1.now) }
    ensures fits { IfSome result (λ read. length read.0.now < 2 ^ 16) }
    ensures none { IfNone result ((text : List ℕ) (rest : List ℕ)
        → length text < 2 ^ 16 → bytes.now ≢ text_bytes text ++ rest) }
{
    let Some((size, rest)) = u16_at(bytes) else {
        return None;
    };
    if rest.len() < usize::from(size) {
        return None;
    }
    Some(rest.split_at(usize::from(size)))
}

/// The name of a storage that the text in front is.
pub fn name_at(bytes: &[u8]) -> Option<(StorageName, &[u8])>
    ensures some { IfSome result (λ read. bytes.now ≡ text_bytes read.0 ++ read.1.now) }
    ensures name { IfSome result (λ read. IsStorageName read.0) }
    ensures none { IfNone result ((name : List ℕ) (rest : List ℕ)
        → IsStorageName name → bytes.now ≢ text_bytes name ++ rest) }
{
    let Some((text, rest)) = text_at(bytes) else {
        return None;
    };
    match StorageName::read(text) {
        Ok(name) => Some((name, rest)),
        Err(_) => None,
    }
}
