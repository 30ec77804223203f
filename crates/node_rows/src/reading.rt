//! What rows say.

ghost use Rattle.std.specs.Prelude.{◌≡◌, ◌≢◌, ◌<◌, ◌-◌, ◌^◌, ℕ, Bool, length, IfNone, IfOk, IfSome, Option};
ghost use Rattle.std.specs.Option.{option_map};
ghost use Rattle.node_rows.specs.Rows.{cut, object_bytes, replica_bytes};
ghost use Rattle.px_base.specs.Hash.{IsHash};
ghost use Rattle.px_base.specs.Object.{GitObject, IsSmall};

use px_base::{Bytes, Lease, MAX_CONTENT_BYTES, Object, ObjectId};
use px_fields::{flag_at, id_at, kind_at, optional_lease_at, u64_at};
use std::alloc::{AllocError, Global};

/// What the row of a repository says.
#[derive(Clone, Copy, Debug, PartialEq, Eq)]
pub struct ReplicaRow {
    /// The fence, which is the least lease that an effect may carry.
    pub fence: u64,
    /// The lease of the last push that was done.
    pub last: Option<Lease>,
    /// Whether the repository is held.
    pub held: bool,
}

/// What the value of a row of table 6 says, or `None` where it is no such value: 8 bytes of the
/// fence, a flag and 8 bytes of the last lease, and a flag, numbers with the highest byte first,
/// flags 0 or 1. The lease is 0 where its flag is, and never 2^64 - 1.
pub fn read_replica(value: &[u8]) -> Option<ReplicaRow>
    ensures says { IfSome result (λ row. value.now ≡ replica_bytes row.fence row.last row.held) }
    ensures fits { IfSome result (λ row.
        (row.fence < 2 ^ 64) × IfSome row.last (λ lease. lease < 2 ^ 64 - 1)) }
    ensures none { IfNone result ((fence : ℕ) (last : Option ℕ) (held : Bool) → fence < 2 ^ 64
        → IfSome last (λ lease. lease < 2 ^ 64 - 1) → value.now ≢ replica_bytes fence last held) }
{
    let Some((fence, rest)) = u64_at(value) else {
        return None;
    };
    let Some((last, rest)) = optional_lease_at(rest) else {
        return None;
    };
    let Some((held, rest)) = flag_at(rest) else {
        return None;
    };
    if !rest.is_empty() {
        return None;
    }
    Some(ReplicaRow { fence, last, held })
}

/// What stands before the first NUL of a key, and what stands behind it.
pub fn parts_of(key: &[u8]) -> Option<(&[u8], &[u8])>
    ensures { option_map (λ parts. (parts.0.now, parts.1.now)) result ≡ cut key.now }
{
    for (place, byte) in key.iter().enumerate() {
        if *byte == 0 {
            return Some((&key[..place], &key[place + 1..]));
        }
    }
    None
}

/// The id that the value of a row of table 7 is, or `None` where it has not 20 bytes.
pub fn read_id(value: &[u8]) -> Option<ObjectId>
    ensures id { IfSome result (λ id. (value.now ≡ id.0) × IsHash id) }
    ensures none { IfNone result (length value.now ≢ 20) }
{
    let Some((id, rest)) = id_at(value) else {
        return None;
    };
    if !rest.is_empty() {
        return None;
    }
    Some(id)
}

/// The object that the value of a row of table 8 is, or `None` where it is none: a byte for the
/// kind, and the content, of at most `MAX_CONTENT_BYTES` bytes.
pub fn read_object(alloc: Global, value: &[u8]) -> Result<Option<Object>, AllocError>
    ensures some { IfOk result (λ read.
        IfSome read (λ object. (value.now ≡ object_bytes object) × IsSmall object.content)) }
    ensures none { IfOk result (λ read. IfNone read ((object : GitObject)
        → IsSmall object.content → value.now ≢ object_bytes object)) }
{
    let Some((kind, content)) = kind_at(value) else {
        return Ok(None);
    };
    if content.len() > MAX_CONTENT_BYTES {
        return Ok(None);
    }
    let content = Bytes::from_slice(alloc, content)?;
    Ok(Object::new(kind, content))
}
